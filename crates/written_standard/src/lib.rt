// A test of a written tree in the place of the standard tree's non-life module.
#![tactic(auto)]

#[cfg(test)]
mod tests {
    use modules::{Line, Sheet, price};
    use standard::standard;
    use std::test::Fail;
    use written::Written;

    // 30 and 40 units that do not go together make 50. The roundings are the standard tree's own 20,
    // the written lines' and their root's, and line 10's.
    #[test]
    fn under_the_standard_tree(rt: HostRuntime) -> Result<(), Fail> {
        let mut sheet = Sheet::new();
        sheet.set_total(2, 300_000)?;
        sheet.set_total(3, 400_000)?;
        let words = [0x40000002, 0x50000000, 0x10000002, 0x10000003];
        let tree = Written::new(words.to_vec(rt.alloc())?)?;
        let charge = price(&standard(tree, Line::new(10)?), &sheet)?;
        assert_eq!(rt;
            (charge.gross, charge.roundings, charge.amount),
            (70, 24, 50)
        );
        Ok(())
    }
}
