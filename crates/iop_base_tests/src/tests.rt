use iop_base::{Kept, Width};

#[test]
fn accesses_have_bytes(rt: HostRuntime) {
    assert_eq!(rt; Width::Byte.bytes(), 1);
    assert_eq!(rt; Width::Half.bytes(), 2);
    assert_eq!(rt; Width::Word.bytes(), 4);
}

#[test]
fn results_keep_modules(rt: HostRuntime) {
    assert_eq!(rt; Kept::of_value(0), Kept::Resident);
    assert_eq!(rt; Kept::of_value(2), Kept::Removable);
    assert_eq!(rt; Kept::of_value(0xFFFF_FFFF), Kept::Removed);
}
