use iop_base::MOST_WORKERS;
use iop_generator::generate;
use irx_elf::Irx;
use std::test::Fail;

/// The bytes of the file: the file header and two program headers, the module information, 80 words
/// of text and 16 of data, 23 relocation entries, and two section headers.
const LENGTH: usize = 116 + 32 + 4 * (80 + 16) + 8 * 23 + 80;

#[test]
fn files_are_generated(rt: HostRuntime) -> Result<(), Fail> {
    let alloc = rt.alloc();
    for workers in [1, MOST_WORKERS] {
        let file = generate(alloc, workers)?;
        assert_eq!(rt; file.len(), LENGTH);
        assert!(rt; Irx::parse(&file).is_ok());
    }
    Ok(())
}
