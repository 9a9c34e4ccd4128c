// What a block of a row is found to be.
ghost use Rattle.std.specs.Prelude.{◌≡◌, ◌<◌, length, Some};
ghost use Rattle.grid.specs.Grids.{row_symbols};
ghost use Rattle.block.specs.Layouts.{shape_of, body_bytes, block_width};
ghost use Rattle.sector.specs.Judgements.{corrected, BodyJudged, RowJudged};

use super::terms::Terms;
use block::condition::Condition;
use block::identification::is_right;
use code::correct::Verdict;
use code::error::CodeError;
use field::{Field, NumberSystem};
use grid::rows::correct_row;

// The condition that follows from what correction says.
fn condition_of(verdict: Result<Verdict, CodeError>) -> Condition
    ensures { result ≡ corrected verdict }
{
    verdict.map_or(Condition::OutOfReach, Condition::from)
}

// What a body is found to be; it is corrected if one symbol has to change.
fn judge_body<F: Field>(terms: &Terms, body: &mut [u8]) -> Condition
    requires { (length body.old ≡ body_bytes terms.now.layout) × (row_symbols F.NumberSystem.system (shape_of terms.now.layout) < F.NumberSystem.system.order) }
    ensures { BodyJudged F.NumberSystem.system terms.now.layout body.old body.new result }
{
    let checks = terms.layout.shape().check_bytes;
    condition_of(correct_row::<F>(body, checks))
}

// What the block at a row's place is found to be; its body is copied, and corrected if one symbol has to change.
pub(crate) fn judge<F: Field>(terms: &Terms, row: usize, block: &[u8], body: &mut [u8]) -> Condition
    requires lengths { (length block.now ≡ block_width terms.now.layout) × (length body.old ≡ body_bytes terms.now.layout) }
    requires short { row_symbols F.NumberSystem.system (shape_of terms.now.layout) < F.NumberSystem.system.order }
    ensures { RowJudged F.NumberSystem.system terms.now row (Some block.now) body.new result }
{
    match block {
        [id0, id1, idp, rest @ ..] => {
            if !is_right(terms.layout, terms.pair, row, [*id0, *id1, *idp]) {
                return Condition::WrongId;
            }
            body.copy_from_slice(rest);
            judge_body::<F>(terms, body)
        }
        _ => Condition::WrongId,
    }
}
