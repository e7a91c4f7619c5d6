use sf_chunk_sizes::{blocks, cut};
use std::test::*;

// Lengths of runs, the lengths of their contents, and the blocks of all of them.
#[test]
fn cuts_runs(rt: HostRuntime) -> Result<(), Fail> {
    let alloc = rt.alloc();
    let rows: [(usize, &[usize], u64); 6] = [
        (0, &[], 0),
        (1, &[1], 1),
        (512, &[512], 1),
        (513, &[513], 2),
        (32_768, &[32_768], 64),
        (65_537, &[32_768, 32_768, 1], 129),
    ];
    for (length, lengths, total) in rows {
        let bytes = vec![in alloc; 65u8; length]?;
        let contents = cut(alloc, &bytes)?;
        assert_eq!(rt; contents.len(), lengths.len(), "{length}");
        for (content, wanted) in contents.as_slice().iter().zip(lengths) {
            assert_eq!(rt; content.len(), *wanted, "{length}");
        }
        assert_eq!(rt; blocks(length as u64), total, "{length}");
    }
    Ok(())
}
