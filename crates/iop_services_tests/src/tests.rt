use iop_services::{Context, Row, Service, THBASE, ThbaseService, row_of, service_code};
use std::process::Abort;

#[test]
fn rows(rt: HostRuntime) {
    let wakes = |context| {
        Some(Row {
            service: Service::Thbase(ThbaseService::WakeupThread),
            context,
        })
    };
    assert_eq!(rt; row_of(THBASE, 25), wakes(Context::Thread));
    assert_eq!(rt; row_of(THBASE, 26), wakes(Context::Handler));
    assert_eq!(rt; row_of(THBASE, 21), None);
    assert_eq!(rt; row_of(11, 4), None);
    assert_eq!(rt; service_code(THBASE, 25), 0x319);
    assert!(rt; Context::Both.allows(true));
    assert!(rt; !Context::Thread.allows(true));
    assert!(rt; !Context::Handler.allows(false));
}
