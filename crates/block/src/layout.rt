// The three layouts of sectors.
ghost use Rattle.std.specs.Prelude.{◌≡◌};
ghost use Rattle.block.specs.Layouts.{first_block, shape_of, row_count, body_bytes, block_width};

use grid::shape::Shape;

/// Which sector of a track: its rows, their sizes, and the numbers of its blocks.
#[derive(Clone, Copy, PartialEq, Eq, Debug)]
pub enum Layout {
    Audio,
    Video,
    Subcode,
}

impl Layout {
    /// The block number of row 0.
    pub fn first_block(self) -> usize
        ensures { result ≡ first_block self }
    {
        match self {
            Layout::Audio => 2,
            Layout::Video => 19,
            Layout::Subcode => 0,
        }
    }

    /// The data rows, check rows, data bytes and check bytes.
    pub fn shape(self) -> Shape
        ensures { result ≡ shape_of self }
    {
        match self {
            Layout::Audio => Shape {
                data_rows: 9,
                check_rows: 5,
                data_bytes: 77,
                check_bytes: 8,
            },
            Layout::Video => Shape {
                data_rows: 138,
                check_rows: 11,
                data_bytes: 77,
                check_bytes: 8,
            },
            Layout::Subcode => Shape {
                data_rows: 12,
                check_rows: 0,
                data_bytes: 5,
                check_bytes: 2,
            },
        }
    }

    /// How many rows a sector has: data rows and check rows.
    pub fn rows(self) -> usize
        ensures { result ≡ row_count self }
    {
        let shape = self.shape();
        shape.data_rows + shape.check_rows
    }

    /// How many bytes the body of a block has: data bytes and check bytes.
    pub fn body_bytes(self) -> usize
        ensures { result ≡ body_bytes self }
    {
        let shape = self.shape();
        shape.data_bytes + shape.check_bytes
    }

    /// How many bytes a block has: three identification bytes and its body.
    pub fn width(self) -> usize
        ensures { result ≡ block_width self }
    {
        3 + self.body_bytes()
    }
}
