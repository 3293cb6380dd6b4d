//! A member whose address is found once its file is read.
use lg_config::{FileFault, Given, NodeConfig};
use lg_rules::{Addr, Ip};
use std::alloc::Global;

/// The address ::1.
const LOOPBACK: Ip = Ip::V6([0, 0, 0, 0, 0, 0, 0, 0, 0, 0, 0, 0, 0, 0, 0, 1]);

/// A member b whose address is to be found.
const SEEKING: &[u8] = b"name = \"b\"\naddress = \"auto\"\nseeds = [\"a\"]\n";

/// What comes of such a member in this version of packets, once its address is this one: where its socket is bound, or
/// its fault.
fn bound(alloc: Global, wire: &str, ip: Ip) -> Option<Result<Addr, FileFault>> {
    let given = [Given {
        key: "wire",
        text: wire,
    }];
    let node = NodeConfig::read(alloc, SEEKING, &given).ok()?;
    match node.with_ip(ip) {
        Ok(found) => Some(Ok(found.bound_at())),
        Err(fault) => Some(Err(fault)),
    }
}

/// A member that was told its own address has it, and its socket is bound there. One of IPv6 needs packets of version
/// 3.
#[test]
fn found_addresses(rt: HostRuntime) {
    let rows = [
        ("1", Ip::V4([10, 0, 0, 8]), Ok(())),
        ("2", LOOPBACK, Err(FileFault::Family)),
        ("3", LOOPBACK, Ok(())),
    ];
    for row in rows {
        let (wire, ip, wanted) = row;
        let wanted = wanted.map(|()| Addr { ip, port: 7946 });
        assert!(rt; bound(rt.alloc(), wire, ip) == Some(wanted), "{row:?}");
    }
}
