// Examples of the block stores: known values, counts of places, refusals, and stacks that show the same blocks.
#![tactic(auto)]

#[cfg(test)]
mod tests {
    use image::Image;
    use randomizer::{Randomizer, sequence_of};
    use spool::Spool;
    use std::process::Abort;
    use std::test::Fail;
    use store::{BlockStore, StoreRefusal};
    use window::Window;

    // Puts, a put again and a clear, on a store of three places and a width of four.
    fn write<S: BlockStore>(store: &mut S) -> Result<(), Fail> {
        store.put(2, &[9, 9, 9, 9])?;
        store.put(0, &[1, 2, 3, 4])?;
        store.put(2, &[5, 6, 7, 8])?;
        store.put(1, &[10, 11, 12, 13])?;
        store.clear(1)?;
        Ok(())
    }

    // What the calls of `write` leave: a block, a blank place, a block.
    fn shows<S: BlockStore>(rt: &impl Abort, store: &S) -> Result<(), Fail> {
        let mut buffer = [0u8; 4];
        assert!(rt; store.place_count() == 3);
        assert!(rt; store.block_width() == 4);
        assert!(rt; store.get(0, &mut buffer)?);
        assert_eq!(rt; buffer, [1, 2, 3, 4]);
        assert!(rt; !store.get(1, &mut buffer)?);
        assert_eq!(rt; buffer, [1, 2, 3, 4], "a blank place writes nothing");
        assert!(rt; store.get(2, &mut buffer)?);
        assert_eq!(rt; buffer, [5, 6, 7, 8]);
        Ok(())
    }

    #[test]
    fn known_sequences(rt: HostRuntime) {
        let full = sequence_of(127);
        assert_eq!(rt; [full[0], full[1], full[2]], [0xFE, 0x1D, 0xE5]);
        assert_eq!(rt; [full[85], full[86], full[87]], [0x8B, 0xAD, 0x83]);
        let one = sequence_of(1);
        assert_eq!(rt;
            [one[0], one[1], one[2], one[3], one[4], one[5]],
            [0x02, 0x26, 0x2E, 0xB6, 0x0C, 0xD4]
        );
    }

    #[test]
    fn places_of_images(rt: HostRuntime) {
        let mut memory = [0u8; 1260];
        let mut shorter = [0u8; 1259];
        assert!(rt; Image::new(&mut memory, 88).place_count() == 14);
        assert!(rt; Image::new(&mut shorter, 88).place_count() == 13);
        assert!(rt; Image::new(&mut memory, 1).place_count() == 169);
        assert!(rt; Image::new(&mut memory, 0).place_count() == 0);
        assert!(rt; Image::new(&mut memory, 89).place_count() == 0);
    }

    #[test]
    fn places_of_spools(rt: HostRuntime) -> Result<(), Fail> {
        assert!(rt; Spool::new(rt.alloc(), 169, 88)?.place_count() == 169);
        assert!(rt; Spool::new(rt.alloc(), 170, 88)?.place_count() == 0);
        assert!(rt; Spool::new(rt.alloc(), 3, 0)?.place_count() == 0);
        assert!(rt; Spool::new(rt.alloc(), 3, 89)?.place_count() == 0);
        Ok(())
    }

    #[test]
    fn places_of_windows(rt: HostRuntime) {
        let mut memory = [0u8; 18];
        assert!(rt; Window::new(Image::new(&mut memory, 4), 1, 2).place_count() == 2);
        assert!(rt; Window::new(Image::new(&mut memory, 4), 1, 3).place_count() == 0);
        assert!(rt; Window::new(Image::new(&mut memory, 4), 2, usize::MAX).place_count() == 0);
    }

    #[test]
    fn places_of_randomizers(rt: HostRuntime) {
        let mut memory = [0u8; 18];
        assert!(rt; Randomizer::new(Image::new(&mut memory, 4), 127).place_count() == 3);
        assert!(rt; Randomizer::new(Image::new(&mut memory, 4), 0).place_count() == 0);
        assert!(rt; Randomizer::new(Image::new(&mut memory, 4), 128).place_count() == 0);
    }

    #[test]
    fn image_and_its_layers(rt: HostRuntime) -> Result<(), Fail> {
        let mut small = [0xAAu8; 18];
        let mut image = Image::new(&mut small, 4);
        write(&mut image)?;
        shows(&rt, &image)?;
        let mut memory = [0xAAu8; 32];
        let mut stack = Randomizer::new(Window::new(Image::new(&mut memory, 4), 1, 3), 127);
        write(&mut stack)?;
        shows(&rt, &stack)?;
        let mut other = Window::new(Randomizer::new(Image::new(&mut memory, 4), 1), 2, 3);
        write(&mut other)?;
        shows(&rt, &other)
    }

    #[test]
    fn spool_and_its_layers(rt: HostRuntime) -> Result<(), Fail> {
        let mut spool = Spool::new(rt.alloc(), 3, 4)?;
        write(&mut spool)?;
        shows(&rt, &spool)?;
        let mut stack = Window::new(Randomizer::new(Spool::new(rt.alloc(), 7, 4)?, 77), 4, 3);
        write(&mut stack)?;
        shows(&rt, &stack)?;
        let mut deep = Randomizer::new(Window::new(Randomizer::new(stack, 5), 0, 3), 6);
        write(&mut deep)?;
        shows(&rt, &deep)
    }

    #[test]
    fn memory_under_a_randomizer(rt: HostRuntime) -> Result<(), Fail> {
        let mut memory = [0u8; 10];
        let mut store = Randomizer::new(Image::new(&mut memory, 3), 127);
        store.put(1, &[0, 0xFF, 1])?;
        drop(store);
        assert_eq!(rt; memory, [0, 0, 0, 0, 0, 1, 0, 0xFE, 0xE2, 0xE4]);
        Ok(())
    }

    #[test]
    fn memory_after_a_clear(rt: HostRuntime) -> Result<(), Fail> {
        let mut memory = [1, 0, 7, 8, 1, 0, 5, 6];
        let mut image = Image::new(&mut memory, 2);
        image.clear(1)?;
        drop(image);
        assert_eq!(rt; memory, [1, 0, 7, 8, 0, 0, 5, 6]);
        Ok(())
    }

    #[test]
    fn refusals(rt: HostRuntime) {
        let mut memory = [0u8; 12];
        let mut store = Window::new(Randomizer::new(Image::new(&mut memory, 4), 9), 0, 2);
        let mut buffer = [0u8; 5];
        assert_eq!(rt; store.put(2, &buffer), Err(StoreRefusal::Place));
        assert_eq!(rt; store.put(1, &buffer), Err(StoreRefusal::Length));
        assert_eq!(rt; store.get(2, &mut buffer), Err(StoreRefusal::Place));
        assert_eq!(rt; store.get(1, &mut buffer), Err(StoreRefusal::Length));
        assert_eq!(rt; store.clear(2), Err(StoreRefusal::Place));
        assert_eq!(rt; store.clear(1), Ok(()));
        assert!(rt; StoreRefusal::Place.number() == 1 && StoreRefusal::Length.number() == 2);
    }
}
