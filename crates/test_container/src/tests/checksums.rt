//! Tests of the checksum, with the values that zlib computes.
use rkyv_container::adler32;

#[test]
fn checksums_are_known(rt: HostRuntime) {
    let expected = [
        0x0000_0001,
        0x0062_0062,
        0x024d_0127,
        0x2975_0586,
        0x9086_0b20,
        0x8adb_150c,
        0x11e6_0398,
    ];
    expect_eq!(rt; [adler32(b""), adler32(b"a"), adler32(b"abc"), adler32(b"message digest"),
        adler32(b"abcdefghijklmnopqrstuvwxyz"),
        adler32(b"ABCDEFGHIJKLMNOPQRSTUVWXYZabcdefghijklmnopqrstuvwxyz0123456789"),
        adler32(b"Wikipedia")], expected);
    // The sums are reduced after blocks of 4,096 bytes.
    let bytes = [0xff; 10_000];
    expect_eq!(rt; adler32(&bytes[..4_096]), 0x8161_f0e2);
    expect_eq!(rt; adler32(&bytes[..4_097]), 0x7351_f1e1);
    expect_eq!(rt; adler32(&bytes), 0xb623_eb2b);
    expect_eq!(rt; adler32(&[0; 10_000]), 0x2710_0001);
    assert_eq!(rt; adler32(b"abc"), 0x024d_0127);
}
