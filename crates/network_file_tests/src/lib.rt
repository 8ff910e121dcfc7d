// Damaged network files, and the number and the place that each of them is refused with.

#![tactic(auto)]

#[cfg(test)]
mod tests {
    use network_file::check;
    use std::alloc::{AllocError, Global};
    use std::test::Fail;

    // The number and the place of a refusal, or `None` where the file is granted.
    type Refusal = Option<(u32, u32)>;

    // The nodes, the arcs and the length of a file, and its refusal.
    const SIZES: [(u32, u32, usize, Refusal); 13] = [
        // short, and too large
        (0, 0, 0, Some((8, 0))),
        (0, 0, 15, Some((8, 15))),
        (0, 0, 16, None),
        (2, 5459, 65532, None),
        (2, 5459, 65535, Some((8, 65535))),
        (2, 5459, 65536, Some((4, 0))),
        // the limits of the counts
        (4096, 0, 16400, None),
        (4097, 0, 16404, Some((9, 4))),
        (5, 32768, 96, Some((8, 96))),
        (5, 32769, 96, Some((9, 12))),
        // the length that the contents table gives, and off by one
        (5, 5, 96, None),
        (5, 5, 95, Some((8, 95))),
        (5, 5, 97, Some((8, 97))),
    ];

    // A field of a file of 5 nodes and 5 arcs, the value that is put there, and the refusal.
    const FIELDS: [(usize, u32, Refusal); 16] = [
        // each field of the contents table off by one
        (0, 15, Some((9, 0))),
        (0, 17, Some((9, 0))),
        (4, 4, Some((9, 8))),
        (4, 6, Some((9, 8))),
        (8, 35, Some((9, 8))),
        (8, 37, Some((9, 8))),
        (12, 4, Some((8, 96))),
        (12, 6, Some((8, 96))),
        // nodes that repeat: the second, the last, and the first, which the second then repeats
        (20, 1, Some((10, 20))),
        (32, 4, Some((10, 32))),
        (16, 2, Some((10, 20))),
        // ends of the first and the last arc that are no nodes, and a weight
        (36, 6, Some((11, 36))),
        (40, 0, Some((11, 40))),
        (84, 6, Some((11, 84))),
        (88, 6, Some((11, 88))),
        (92, 4294967295, None),
    ];

    // A file of `nodes` nodes, numbered from 1, and of `arcs` arcs, all from the first node to the last, cut or filled
    // up to `length` bytes.
    fn file(alloc: Global, nodes: u32, arcs: u32, length: usize) -> Result<Vec<u8>, AllocError> {
        let mut bytes = Vec::new(alloc);
        for field in [16, nodes, nodes.wrapping_mul(4).wrapping_add(16), arcs] {
            bytes.extend_from_slice(&field.to_le_bytes())?;
        }
        for node in 1..=nodes {
            bytes.extend_from_slice(&node.to_le_bytes())?;
        }
        for weight in 0..arcs {
            for field in [1, nodes, weight] {
                bytes.extend_from_slice(&field.to_le_bytes())?;
            }
        }
        bytes.resize(length, 0)?;
        Ok(bytes)
    }

    // Puts `value` into the field at `at`, where there is one.
    fn put(bytes: &mut [u8], at: usize, value: u32) {
        if at <= bytes.len() && bytes.len() - at >= 4 {
            bytes[at..at + 4].copy_from_slice(&value.to_le_bytes());
        }
    }

    fn refusal(bytes: &[u8]) -> Refusal {
        let fault = check(bytes).err()?;
        Some((fault.number(), fault.place()))
    }

    #[test]
    fn sizes(rt: HostRuntime) -> Result<(), Fail> {
        for (nodes, arcs, length, refused) in SIZES {
            let bytes = file(rt.alloc(), nodes, arcs, length)?;
            assert_eq!(rt; refusal(&bytes), refused);
        }
        Ok(())
    }

    #[test]
    fn fields(rt: HostRuntime) -> Result<(), Fail> {
        for (at, value, refused) in FIELDS {
            let mut bytes = file(rt.alloc(), 5, 5, 96)?;
            put(&mut bytes, at, value);
            assert_eq!(rt; refusal(&bytes), refused);
        }
        Ok(())
    }

    #[test]
    fn first_field_of_an_empty_network(rt: HostRuntime) -> Result<(), Fail> {
        let mut bytes = file(rt.alloc(), 0, 0, 16)?;
        put(&mut bytes, 0, 0);
        assert_eq!(rt; refusal(&bytes), Some((9, 0)));
        Ok(())
    }
}
