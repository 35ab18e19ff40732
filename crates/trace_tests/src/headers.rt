//! Headers: numbers at the boundaries and past every width, and damaged ones.
use trace::read_header;

#[test]
fn headers_in_range(rt: HostRuntime) {
    assert_eq!(rt; read_header(b"frames=1\n"), Some(1));
    assert_eq!(rt; read_header(b"frames=8\n"), Some(8));
    assert_eq!(rt; read_header(b"frames=256\n"), Some(256));
    assert_eq!(rt; read_header(b"frames=257\n"), Some(257));
    assert_eq!(rt; read_header(b"frames=4095\n"), Some(4095));
    assert_eq!(rt; read_header(b"frames=4096\n"), Some(4096));
}

#[test]
fn headers_out_of_range(rt: HostRuntime) {
    let lines: [&[u8]; 10] = [
        b"frames=0\n",
        b"frames=4097\n",
        b"frames=40960\n",
        b"frames=65536\n",
        b"frames=65537\n",
        b"frames=4294967296\n",
        b"frames=4294967297\n",
        b"frames=18446744073709551616\n",
        b"frames=18446744073709551617\n",
        b"frames=1000000000000000000000000000000000000000000000000000000000000000000000000000000000000000000000000001\n",
    ];
    for line in lines {
        assert_eq!(rt; read_header(line), None);
    }
}

#[test]
fn headers_damaged(rt: HostRuntime) {
    let lines: [&[u8]; 16] = [
        b"",
        b"\n",
        b"frames=\n",
        b"frames=8",
        b"frames=08\n",
        b"frames=00\n",
        b"frames= 8\n",
        b"frames=8 \n",
        b"frames=8\r\n",
        b"frames=8\n\n",
        b"frames=+8\n",
        b"frames=0x8\n",
        b"Frames=8\n",
        b"frames:8\n",
        b"frames=8\x00\n",
        b"frames=\xb8\n",
    ];
    for line in lines {
        assert_eq!(rt; read_header(line), None);
    }
}
