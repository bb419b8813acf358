// Tests of correlation tables: every size, both ways in, and each kind of fault.
#![tactic(auto)]

#[cfg(test)]
mod tests {
    use correlation::{ENTRIES, Table, entry_count};
    use std::alloc::{AllocError, Global};
    use std::test::Fail;

    // The square of `size` branches with the same entry for any two of them.
    fn square(heap: Global, size: usize, entry: u32) -> Result<Vec<u32>, AllocError> {
        let mut all = Vec::new(heap);
        for own in 0..size {
            let mut row = vec![in heap; entry; size]?;
            row[own] = 100;
            all.extend_from_slice(row.as_slice())?;
        }
        Ok(all)
    }

    // The root of 100 from each branch under the table.
    fn hundreds(heap: Global, table: &Table) -> Result<u64, Fail> {
        let charges = vec![in heap; 100; table.size()]?;
        Ok(table.root(charges.as_slice())?)
    }

    // 100 times the root of n + n(n - 1)/2, rounded up.
    const HUNDREDS_AT_50: [(usize, u64); 8] = [
        (1, 100),
        (2, 174),
        (3, 245),
        (4, 317),
        (5, 388),
        (6, 459),
        (7, 530),
        (8, 600),
    ];

    #[test]
    fn every_size(rt: HostRuntime) -> Result<(), Fail> {
        let heap = rt.alloc();
        for (size, root) in HUNDREDS_AT_50 {
            let mut table = Table::new(1)?;
            table.replace(size, square(heap, size, 50)?.as_slice())?;
            assert_eq!(rt; table.size(), size);
            assert_eq!(rt; hundreds(heap, &table)?, root);
            let mut other = Table::new(size)?;
            let above = vec![in heap; 50; entry_count(size).expect(&rt, "a size in range")]?;
            other.replace_above(size, above.as_slice())?;
            assert_eq!(rt; hundreds(heap, &other)?, root);
        }
        Ok(())
    }

    #[test]
    fn sizes_out_of_range(rt: HostRuntime) {
        for size in [0, 9, usize::MAX] {
            assert!(rt; Table::new(size).is_err());
            assert_eq!(rt; entry_count(size), None);
        }
        assert!(rt; Table::new(8).is_ok());
        assert_eq!(rt; entry_count(8), Some(ENTRIES));
    }

    #[test]
    fn entries(rt: HostRuntime) -> Result<(), Fail> {
        let mut table = Table::new(3)?;
        table.replace(3, &[100, 25, 75, 25, 100, 50, 75, 50, 100])?;
        assert_eq!(rt; table.entry(0, 2), Some(75));
        assert_eq!(rt; table.entry(2, 1), Some(50));
        assert_eq!(rt; table.entry(1, 1), Some(100));
        assert_eq!(rt; table.entry(0, 3), None);
        assert_eq!(rt; table.entry(3, 0), None);
        Ok(())
    }

    #[test]
    fn squares_not_lawful(rt: HostRuntime) -> Result<(), Fail> {
        let faults: [(usize, &[u32], &str); 8] = [
            (0, &[], "size 0"),
            (9, &[0; 81], "size 9"),
            (2, &[100, 0, 0], "too few"),
            (2, &[100, 0, 0, 100, 0], "too many"),
            (2, &[100, 101, 101, 100], "above 100"),
            (2, &[99, 0, 0, 100], "diagonal"),
            (2, &[100, 10, 11, 100], "not symmetric"),
            (3, &[100, 0, 71, 0, 100, 71, 71, 71, 100], "row condition"),
        ];
        let mut table = Table::new(2)?;
        table.replace_above(2, &[30])?;
        for (size, square, fault) in faults {
            assert!(rt; table.replace(size, square).is_err(), "{fault}");
            // It is as it stood.
            assert_eq!(rt; table.size(), 2, "{fault}");
            assert_eq!(rt; table.entry(0, 1), Some(30), "{fault}");
        }
        Ok(())
    }

    #[test]
    fn above_not_lawful(rt: HostRuntime) -> Result<(), Fail> {
        let faults: [(usize, &[u32], &str); 6] = [
            (0, &[], "size 0"),
            (9, &[0; 36], "size 9"),
            (3, &[0, 0], "too few"),
            (1, &[0], "too many"),
            (2, &[u32::MAX], "above 100"),
            (3, &[0, 100, 100], "row condition"),
        ];
        let mut table = Table::new(1)?;
        for (size, entries, fault) in faults {
            assert!(rt; table.replace_above(size, entries).is_err(), "{fault}");
            // It is as it stood.
            assert_eq!(rt; table.size(), 1, "{fault}");
        }
        Ok(())
    }

    #[test]
    fn roots(rt: HostRuntime) -> Result<(), Fail> {
        let mut table = Table::new(2)?;
        assert!(rt; table.root(&[1]).is_err());
        assert!(rt; table.root(&[1, 2, 3]).is_err());
        assert_eq!(rt; table.root(&[0, 0])?, 0);
        // 100·w² at least 200, so that w is 2 though the root of 2 is nearer to 1.
        assert_eq!(rt; table.root(&[1, 1])?, 2);
        assert_eq!(rt; table.root(&[u32::MAX, u32::MAX])?, 6074000999);
        table.replace_above(2, &[100])?;
        assert_eq!(rt; table.root(&[u32::MAX, u32::MAX])?, 8589934590);
        Ok(())
    }
}
