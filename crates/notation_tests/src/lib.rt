// Tests of the notation: worked trees, counts and numbers that are refused later, what is no notation, and trees that are shown.
#![tactic(auto)]

#[cfg(test)]
mod tests {
    use notation::{hexadecimal_words, show, words_of};
    use std::alloc::Global;
    use std::process::Abort;
    use std::test::Fail;

    // The words that the text stands for.
    fn read(heap: Global, text: &[u8]) -> Result<Vec<u32>, Fail> {
        words_of(heap, text)?.ok_or_else(|| Fail::new("it is no notation"))
    }

    // The text stands for these words.
    fn stands(rt: &impl Abort, heap: Global, text: &[u8], words: &[u32]) -> Result<(), Fail> {
        assert_eq!(rt; read(heap, text)?.as_slice(), words);
        Ok(())
    }

    // The text is no notation.
    fn is_none(rt: &impl Abort, heap: Global, text: &[u8]) -> Result<(), Fail> {
        assert!(rt; words_of(heap, text)?.is_none(), "it is a notation");
        Ok(())
    }

    #[test]
    fn trees(rt: HostRuntime) -> Result<(), Fail> {
        let heap = rt.alloc();
        let worked: [u32; 4] = [0x40000002, 0x50000019, 0x10000001, 0x1000000e];
        stands(&rt, heap, b"root[25](line 1, line 14)", &worked)?;
        stands(
            &rt,
            heap,
            b"\troot [ 25 ]\r\n ( line  01 ,line 14 ) ",
            &worked,
        )?;
        let nested: [u32; 6] = [
            0x20000002, 0x30000002, 0x10000002, 0x10000003, 0x40000001, 0x1000001d,
        ];
        stands(
            &rt,
            heap,
            b"sum(greater(line 2, line 3), root[](line 29))",
            &nested,
        )
    }

    #[test]
    fn counts(rt: HostRuntime) -> Result<(), Fail> {
        let heap = rt.alloc();
        stands(&rt, heap, b"sum()", &[0x20000000])?;
        stands(&rt, heap, b"greater(line 1)", &[0x30000001, 0x10000001])?;
        let nine: [u32; 10] = [
            0x20000009, 0x10000001, 0x10000002, 0x10000003, 0x10000004, 0x10000005, 0x10000006,
            0x10000007, 0x10000008, 0x10000009,
        ];
        stands(
            &rt,
            heap,
            b"sum(line 1,line 2,line 3,line 4,line 5,line 6,line 7,line 8,line 9)",
            &nine,
        )?;
        stands(&rt, heap, b"line 268435455", &[0x1fffffff])?;
        stands(&rt, heap, b"line 268435456", &[0x1fffffff])?;
        stands(&rt, heap, b"line 99999999999999999999", &[0x1fffffff])
    }

    #[test]
    fn no_notation(rt: HostRuntime) -> Result<(), Fail> {
        let heap = rt.alloc();
        is_none(&rt, heap, b"")?;
        is_none(&rt, heap, b"line")?;
        is_none(&rt, heap, b"line1")?;
        is_none(&rt, heap, b"Line 1")?;
        is_none(&rt, heap, b"line -1")?;
        is_none(&rt, heap, b"line 1 line 2")?;
        is_none(&rt, heap, b"root(line 1)")?;
        is_none(&rt, heap, b"root[25, 50](line 1)")?;
        is_none(&rt, heap, b"sum(line 1,)")?;
        is_none(&rt, heap, b"sum(line 1")?;
        is_none(&rt, heap, b"sum(line 1))")?;
        is_none(&rt, heap, b"choice(line 1, line 2)")
    }

    #[test]
    fn hexadecimal(rt: HostRuntime) -> Result<(), Fail> {
        let heap = rt.alloc();
        let none = hexadecimal_words(heap, &[])?;
        assert_eq!(rt; none.as_str(), "");
        let two = hexadecimal_words(heap, &[0x40000002, 0x1000000e])?;
        assert_eq!(rt; two.as_str(), "0x40000002 0x1000000e");
        Ok(())
    }

    // The words are shown as this text, which reads back as them.
    fn shows(
        rt: &impl Abort,
        heap: Global,
        words: &[u32],
        indent: u8,
        text: &str,
    ) -> Result<(), Fail> {
        let found = show(heap, words, indent)?.ok_or_else(|| Fail::new("it is no tree"))?;
        assert_eq!(rt; found.as_str(), text);
        stands(rt, heap, found.as_bytes(), words)
    }

    // The words are no tree.
    fn no_tree(rt: &impl Abort, heap: Global, words: &[u32]) -> Result<(), Fail> {
        assert!(rt; show(heap, words, 0)?.is_none(), "it is a tree");
        Ok(())
    }

    #[test]
    fn shown(rt: HostRuntime) -> Result<(), Fail> {
        let heap = rt.alloc();
        shows(&rt, heap, &[0x10000007], 0, "line 7")?;
        shows(
            &rt,
            heap,
            &[0x40000001, 0x1000001d],
            0,
            "root[](\n  line 29\n)",
        )?;
        let nested: [u32; 11] = [
            0x20000002, 0x30000002, 0x10000002, 0x10000003, 0x40000003, 0x50000019, 0x50000000,
            0x50000032, 0x1000001d, 0x10000001, 0x1000000e,
        ];
        shows(
            &rt,
            heap,
            &nested,
            0,
            "sum(\n  greater(\n    line 2,\n    line 3\n  ),\n  root[25 0 50](\n    line 29,\n    line 1,\n    line 14\n  )\n)",
        )?;
        shows(
            &rt,
            heap,
            &[0x30000002, 0x10000002, 0x20000001, 0x10000003],
            2,
            "greater(\n    line 2,\n    sum(\n      line 3\n    )\n  )",
        )
    }

    #[test]
    fn not_shown(rt: HostRuntime) -> Result<(), Fail> {
        let heap = rt.alloc();
        no_tree(&rt, heap, &[])?;
        no_tree(&rt, heap, &[0x20000000])?;
        no_tree(&rt, heap, &[0x1000001e])?;
        no_tree(&rt, heap, &[0x10000001, 0x10000002])?;
        no_tree(&rt, heap, &[0x20000002, 0x10000001])?;
        no_tree(
            &rt,
            heap,
            &[
                0x40000003, 0x50000064, 0x50000064, 0x50000000, 0x10000001, 0x10000002, 0x10000003,
            ],
        )
    }

    // Sums of one branch, nested over a line, so many of them.
    fn nested(heap: Global, sums: usize) -> Result<String, Fail> {
        let opened = "sum(".repeat(heap, sums)?;
        let closed = ")".repeat(heap, sums)?;
        Ok(format!(in heap; "{opened}line 1{closed}")?)
    }

    #[test]
    fn depth(rt: HostRuntime) -> Result<(), Fail> {
        let heap = rt.alloc();
        let deepest = nested(heap, 511)?;
        assert_eq!(rt; read(heap, deepest.as_bytes())?.len(), 512);
        let deeper = nested(heap, 512)?;
        is_none(&rt, heap, deeper.as_bytes())
    }
}
