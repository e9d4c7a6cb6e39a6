// Values from outside.
use nv_bytes::{put_u32, put_u64, u16_at, u32_at, u64_at};

#[test]
fn fields(rt: HostRuntime) {
    let bytes = [0x7f, 0x45, 0x4c, 0x46, 1, 2, 3, 4, 5, 6];
    assert_eq!(rt; u16_at(&bytes, 8), 0x0605);
    assert_eq!(rt; u32_at(&bytes, 0), 0x464c_457f);
    assert_eq!(rt; u64_at(&bytes, 2), 0x0605_0403_0201_464c);
    let mut out = [9; 14];
    put_u32(&mut out, 1, 0x1234_5678);
    put_u64(&mut out, 5, 0x0102_0304_0506_0708);
    assert_eq!(rt; out, [9, 0x78, 0x56, 0x34, 0x12, 8, 7, 6, 5, 4, 3, 2, 1, 9]);
}
