// Tests of the words of written trees: what reads, and every refusal with its place.
#![tactic(auto)]

#[cfg(test)]
mod cases;

#[cfg(test)]
mod tests {
    use crate::cases::{CASES, WORDS};
    use std::alloc::{AllocError, Global};
    use std::test::Fail;
    use words::{Item, first_branch, first_item, read};

    const LINE: u32 = 0x10000001;

    const SUM: u32 = 0x20000001;

    // The number and the place of the refusal, or 0 and 0 where the words read, as the list of cases has it.
    fn told(list: &[u32]) -> (u8, usize) {
        match read(list) {
            Ok(_) => (0, 0),
            Err(refusal) => (refusal.number(), refusal.place().unwrap_or(0)),
        }
    }

    #[test]
    fn every_list(rt: HostRuntime) {
        let mut rest: &[u32] = &WORDS;
        for (count, number, place) in CASES.iter() {
            let (list, behind) = rest.split_at_checked(*count).expect(&rt, "as many words");
            assert_eq!(rt; told(list), (*number, *place));
            rest = behind;
        }
        assert!(rt; rest.is_empty());
    }

    #[test]
    fn worked_words(rt: HostRuntime) -> Result<(), Fail> {
        let Item::Root {
            count,
            entries,
            branches,
        } = read(&[0x40000002, 0x50000019, LINE, 0x1000000e])?
        else {
            return Err(Fail::new("it is no root"));
        };
        assert_eq!(rt; count, 2);
        assert_eq!(rt; entries, [0x50000019].as_slice());
        assert_eq!(rt; branches, [LINE, 0x1000000e].as_slice());
        let (first, others) = first_branch(branches)?;
        assert_eq!(rt; line_of(first), Some(1));
        assert_eq!(rt; line_of(first_item(others)?), Some(14));
        Ok(())
    }

    // The number of a line, where the item is one.
    fn line_of(item: Item) -> Option<usize> {
        match item {
            Item::Line(line) => Some(line),
            _ => None,
        }
    }

    // A sum of two sums, the first of which covers two lines and no more.
    #[test]
    fn parts(rt: HostRuntime) -> Result<(), Fail> {
        let list = [0x20000002, 0x20000002, LINE, LINE, 0x30000002, LINE, LINE];
        let Item::Sum { count, branches } = read(&list)? else {
            return Err(Fail::new("it is no sum"));
        };
        assert_eq!(rt; count, 2);
        let (first, others) = first_branch(branches)?;
        let Item::Sum { count, branches } = first else {
            return Err(Fail::new("its first branch is no sum"));
        };
        assert_eq!(rt; count, 2);
        assert_eq!(rt; branches.len(), 2);
        assert_eq!(rt; others.len(), 3);
        Ok(())
    }

    #[test]
    fn depths(rt: HostRuntime) {
        assert_eq!(rt; told(&[SUM, SUM, SUM, SUM, SUM, LINE]), (0, 0));
        assert_eq!(rt; told(&[SUM, SUM, SUM, SUM, SUM, SUM, LINE]), (25, 6));
    }

    // The word of a sum of so many branches, and so many sums of 8 sums of 8 lines, each of 73 words.
    fn large(heap: Global, due: u32, sums: usize) -> Result<Vec<u32>, AllocError> {
        let mut all = Vec::new(heap);
        all.push(0x20000000 | due)?;
        for _ in 0..sums {
            all.push(0x20000008)?;
            for _ in 0..8 {
                all.push(0x20000008)?;
                for _ in 0..8 {
                    all.push(LINE)?;
                }
            }
        }
        Ok(all)
    }

    #[test]
    fn as_many_as_may_be(rt: HostRuntime) -> Result<(), Fail> {
        let heap = rt.alloc();
        assert_eq!(rt; told(large(heap, 7, 6)?.as_slice()), (21, 439));
        assert_eq!(rt; told(large(heap, 7, 7)?.as_slice()), (0, 0));
        assert_eq!(rt; told(large(heap, 6, 7)?.as_slice()), (26, 439));
        assert_eq!(rt; told(large(heap, 8, 7)?.as_slice()), (21, 512));
        let mut all = large(heap, 7, 7)?;
        all.push(LINE)?;
        assert_eq!(rt; told(all.as_slice()), (20, 512));
        let mut wrong = large(heap, 9, 7)?;
        assert_eq!(rt; told(wrong.as_slice()), (23, 0));
        wrong.push(LINE)?;
        assert_eq!(rt; told(wrong.as_slice()), (20, 512));
        Ok(())
    }
}
