// Worked frames, whose keys and texts were written by hand, and prefixes of both families.
use crate::{FlowKey, Link, Prefix, PrefixFault, Side, key_of, key_text};
use std::cmp::Ordering;

// Ethernet, IPv4, UDP: 10.0.0.1 port 1000 to 10.1.0.2 port 53.
const FRAME_A: [u8; 42] = [
    0x02, 0, 0, 0, 0, 0x02, 0x02, 0, 0, 0, 0, 0x01, 0x08, 0x00, 0x45, 0, 0, 0x1c, 0, 0, 0, 0, 0x40,
    0x11, 0, 0, 0x0a, 0, 0, 0x01, 0x0a, 0x01, 0, 0x02, 0x03, 0xe8, 0, 0x35, 0, 0x08, 0, 0,
];

// Frame A with three VLAN tags: from byte 4 on it is a frame with two, since any bytes are addresses.
const TAGGED: [u8; 54] = [
    0x02, 0, 0, 0, 0, 0x02, 0x02, 0, 0, 0, 0, 0x01, 0x81, 0, 0, 0x01, 0x81, 0, 0, 0x01, 0x81, 0, 0,
    0x01, 0x08, 0x00, 0x45, 0, 0, 0x1c, 0, 0, 0, 0, 0x40, 0x11, 0, 0, 0x0a, 0, 0, 0x01, 0x0a, 0x01,
    0, 0x02, 0x03, 0xe8, 0, 0x35, 0, 0x08, 0, 0,
];

// Linux cooked v2, IPv6, UDP.
const FRAME_D: [u8; 68] = [
    0x86, 0xdd, 0, 0, 0, 0, 0, 0, 0, 0, 0, 0, 0, 0, 0, 0, 0, 0, 0, 0, 0x60, 0, 0, 0, 0, 0x08, 0x11,
    0x40, 0x20, 0x01, 0x0d, 0xb8, 0, 0, 0, 0, 0, 0, 0, 0, 0, 0, 0, 0x01, 0x20, 0x01, 0x0d, 0xb8, 0,
    0, 0, 0, 0, 0, 0, 0, 0, 0, 0, 0x02, 0x03, 0xe8, 0, 0x35, 0, 0x08, 0, 0,
];

const WORDS_A: [u32; 11] = [4, 167772161, 0, 0, 0, 167837698, 0, 0, 0, 65536053, 17];

const TEXT_A: &str = "10.0.0.1 1000 10.1.0.2 53 17";

const TEXT_D: &str = "2001:db8:0:0:0:0:0:1 1000 2001:db8:0:0:0:0:0:2 53 17";

const NO_KEY: &str = "";

fn has_text(link: Link, bytes: &[u8], text: &str) -> bool {
    match key_of(link, bytes) {
        Some(key) => key_text(&key).as_str() == text,
        None => text.is_empty(),
    }
}

#[test]
fn frames_have_their_texts(rt: HostRuntime) {
    let mut arp = FRAME_A;
    arp[13] = 0x06;
    let mut tcp = FRAME_A;
    tcp[23] = 6;
    let mut fragment = tcp;
    fragment[21] = 1;
    let cases = [
        (Link::Ethernet, &FRAME_A[..], TEXT_A),
        (Link::Ethernet, &arp[..], NO_KEY),
        (Link::Ethernet, &tcp[..34], NO_KEY),
        (Link::Ethernet, &fragment[..], "10.0.0.1 0 10.1.0.2 0 6"),
        (Link::Ethernet, &TAGGED[4..], TEXT_A),
        (Link::Ethernet, &TAGGED[..], NO_KEY),
        (Link::Raw, &FRAME_A[14..], TEXT_A),
        (Link::Cooked1, &TAGGED[10..], TEXT_A),
        (Link::Cooked2, &FRAME_D[..], TEXT_D),
    ];
    for (link, bytes, text) in cases {
        assert!(rt; has_text(link, bytes, text), "{text}");
    }
}

#[test]
fn frames_at_the_edges(rt: HostRuntime) {
    let mut service = TAGGED;
    service[16] = 0x88;
    service[17] = 0xa8;
    let mut extended = FRAME_D;
    extended[26] = 0;
    let ports_of_0 = "2001:db8:0:0:0:0:0:1 0 2001:db8:0:0:0:0:0:2 0 0";
    let cases = [
        (Link::Ethernet, &service[4..], TEXT_A),
        (Link::Cooked1, &TAGGED[6..], NO_KEY),
        (Link::Cooked2, &extended[..], ports_of_0),
        (Link::Raw, &FRAME_D[20..63], NO_KEY),
        (Link::Raw, &FRAME_D[20..64], TEXT_D),
    ];
    for (link, bytes, text) in cases {
        assert!(rt; has_text(link, bytes, text), "{text}");
    }
}

#[test]
fn frame_a_has_its_words(rt: HostRuntime) {
    let key = key_of(Link::Ethernet, &FRAME_A);
    assert!(rt; key.is_some_and(|key| key.words() == WORDS_A));
    assert!(rt; FlowKey::from_words(WORDS_A) == key);
}

// The family, an unused word of each address, and the protocol.
#[test]
fn other_words_are_no_key(rt: HostRuntime) {
    for (place, word) in [(0, 5), (4, 1), (6, 1), (10, 256)] {
        let mut words = WORDS_A;
        words[place] = word;
        assert!(rt; FlowKey::from_words(words).is_none(), "{word} at {place}");
    }
}

// A later source, and a lesser protocol behind the same addresses.
#[test]
fn keys_are_ordered_by_their_words(rt: HostRuntime) {
    let key = FlowKey::from_words(WORDS_A).expect(&rt, "a key");
    for (place, word, order) in [
        (1, 167772162, Ordering::Greater),
        (10, 6, Ordering::Less),
        (10, 17, Ordering::Equal),
    ] {
        let mut words = WORDS_A;
        words[place] = word;
        let other = FlowKey::from_words(words).expect(&rt, "a key");
        assert_eq!(rt; other.compare(&key), order, "{word} at {place}");
    }
}

fn reads(text: &str, family: u32, words: [u32; 4], length: u8) -> bool {
    match Prefix::parse(text) {
        Ok(prefix) => prefix.family == family && prefix.words == words && prefix.length == length,
        Err(_) => false,
    }
}

#[test]
fn prefixes_are_read(rt: HostRuntime) {
    let rows = [
        ("10.0.0.0/8", 4, [0x0a00_0000, 0, 0, 0], 8),
        ("0.0.0.0/0", 4, [0; 4], 0),
        ("010.000.0.001/08", 4, [0x0a00_0001, 0, 0, 0], 8),
        ("255.255.255.255/32", 4, [0xffff_ffff, 0, 0, 0], 32),
        ("::/0", 6, [0; 4], 0),
        ("2001:DB8::/32", 6, [0x2001_0db8, 0, 0, 0], 32),
        (
            "1:2:3:4:5:6:7::/128",
            6,
            [0x1_0002, 0x3_0004, 0x5_0006, 0x7_0000],
            128,
        ),
        (
            "::2:3:4:5:6:7:8/1",
            6,
            [0x2, 0x3_0004, 0x5_0006, 0x7_0008],
            1,
        ),
        (
            "1:2:3:4:5:6:7:8/64",
            6,
            [0x1_0002, 0x3_0004, 0x5_0006, 0x7_0008],
            64,
        ),
        ("fe80::a:b/010", 6, [0xfe80_0000, 0, 0, 0xa_000b], 10),
    ];
    for (text, family, words, length) in rows {
        assert!(rt; reads(text, family, words, length), "{text}");
    }
}

fn is_refused(text: &str, fault: PrefixFault) -> bool {
    match Prefix::parse(text) {
        Ok(_) => false,
        Err(found) => found == fault,
    }
}

#[test]
fn other_texts_are_no_prefixes(rt: HostRuntime) {
    let addresses = [
        "",
        "/8",
        "10.0.0.0",
        "10.0.0/8",
        "10.0.0.0.0/8",
        "10.0..0/8",
        "256.0.0.0/8",
        "0010.0.0.0/8",
        "1::2::3/8",
        "::1:2:3:4:5:6:7:8/128",
        "1:2:3:4::5:6:7:8/128",
        "1:2:3:4:5:6:7/128",
        "1:2:3:4:5:6:7:8:9/128",
        "::1.2.3.4/96",
        ":1::/8",
        ":::/8",
        "1:2:3:4:5:6:7:/8",
        "12345::/8",
        "g::/8",
    ];
    for text in addresses {
        assert!(rt; is_refused(text, PrefixFault::Address), "{text}");
    }
    let lengths = [
        "10.0.0.0/33",
        "10.0.0.0/",
        "10.0.0.0/0008",
        "10.0.0.0/+8",
        "10.0.0.0/8/8",
        "10.0.0.0/a",
        "::/129",
        "::/256",
    ];
    for text in lengths {
        assert!(rt; is_refused(text, PrefixFault::Length), "{text}");
    }
}

fn is_held(text: &str, key: &FlowKey, side: Side) -> bool {
    match Prefix::parse(text) {
        Ok(prefix) => prefix.holds(key, side),
        Err(_) => false,
    }
}

// From 10.0.0.1 to 10.1.0.2.
#[test]
fn prefixes_hold_an_ipv4_key(rt: HostRuntime) {
    let key = FlowKey::from_words(WORDS_A).expect(&rt, "a key");
    let rows = [
        ("0.0.0.0/0", Side::Source, true),
        ("9.9.9.9/0", Side::Destination, true),
        ("10.99.99.99/8", Side::Source, true),
        ("11.0.0.1/8", Side::Source, false),
        ("10.0.0.0/31", Side::Source, true),
        ("10.0.0.0/32", Side::Source, false),
        ("10.0.0.1/32", Side::Source, true),
        ("10.0.0.1/32", Side::Destination, false),
        ("10.1.0.3/31", Side::Destination, true),
        ("::/0", Side::Source, false),
    ];
    for (text, side, held) in rows {
        assert!(rt; is_held(text, &key, side) == held, "{text}");
    }
}

// From 2001:db8::1 to 2001:db8::2.
#[test]
fn prefixes_hold_an_ipv6_key(rt: HostRuntime) {
    let key = key_of(Link::Cooked2, &FRAME_D).expect(&rt, "a key");
    let rows = [
        ("::/0", Side::Source, true),
        ("20ff::/8", Side::Source, true),
        ("2001:db9::/31", Side::Source, true),
        ("2001:db9::/32", Side::Source, false),
        ("2001:db8:7fff::/33", Side::Source, true),
        ("2001:db8:8000::/33", Side::Source, false),
        ("2001:db8::1/128", Side::Source, true),
        ("2001:db8::1/128", Side::Destination, false),
        ("2001:db8::3/127", Side::Destination, true),
        ("32.1.13.184/32", Side::Source, false),
    ];
    for (text, side, held) in rows {
        assert!(rt; is_held(text, &key, side) == held, "{text}");
    }
}
