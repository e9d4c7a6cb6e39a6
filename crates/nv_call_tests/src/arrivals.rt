use nv_script::{piece, put_line, read};
use std::test::Fail;

// What comes, as it may be written, and as it is written again.
const CAME: &[u8] = b"varan-script 4
# a client, and input
connect 08080
data 0 6869
line 
line a b
input 6162630A
input 000aFF
end input
end 00
connect 1
end clients
data 1 0a
";

const AGAIN: &[u8] = b"connect 8080
data 0 6869
line 
line a b
line abc
input 000aff
end input
end 0
connect 1
end clients
data 1 0a
";

#[test]
fn arrivals_written_again(rt: HostRuntime) -> Result<(), Fail> {
    let read = read(rt.alloc(), CAME);
    assert!(rt; read.is_ok());
    let Ok(script) = read else {
        return Ok(());
    };
    let mut text = Vec::new(rt.alloc());
    for arrival in &script.arrivals {
        put_line(&mut text, arrival)?;
    }
    assert!(rt; text.as_slice() == AGAIN);
    Ok(())
}

#[test]
fn pieces(rt: HostRuntime) {
    let long = [b'a'; 3000];
    assert_eq!(rt; piece(b"ab\ncd\n"), 3);
    assert_eq!(rt; piece(b"\n"), 1);
    assert_eq!(rt; piece(b"half"), 4);
    assert_eq!(rt; piece(&long), 2000);
}
