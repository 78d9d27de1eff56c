// The published vectors of FNV-1a with 64 bits, each hashed and compared.
#![tactic(auto)]

use keys::hash::hash_of;
use std::io;

// Some bytes, and the hash that was published for them.
#[derive(Clone, Copy)]
struct Vector {
    text: &'static str,
    bytes: &'static [u8],
    hash: u64,
}

static VECTORS: [Vector; 18] = [
    Vector {
        text: "no bytes",
        bytes: b"",
        hash: 0xcbf29ce484222325,
    },
    Vector {
        text: "a",
        bytes: b"a",
        hash: 0xaf63dc4c8601ec8c,
    },
    Vector {
        text: "b",
        bytes: b"b",
        hash: 0xaf63df4c8601f1a5,
    },
    Vector {
        text: "c",
        bytes: b"c",
        hash: 0xaf63de4c8601eff2,
    },
    Vector {
        text: "d",
        bytes: b"d",
        hash: 0xaf63d94c8601e773,
    },
    Vector {
        text: "e",
        bytes: b"e",
        hash: 0xaf63d84c8601e5c0,
    },
    Vector {
        text: "f",
        bytes: b"f",
        hash: 0xaf63db4c8601ead9,
    },
    Vector {
        text: "fo",
        bytes: b"fo",
        hash: 0x08985907b541d342,
    },
    Vector {
        text: "foo",
        bytes: b"foo",
        hash: 0xdcb27518fed9d577,
    },
    Vector {
        text: "foob",
        bytes: b"foob",
        hash: 0xdd120e790c2512af,
    },
    Vector {
        text: "fooba",
        bytes: b"fooba",
        hash: 0xcac165afa2fef40a,
    },
    Vector {
        text: "foobar",
        bytes: b"foobar",
        hash: 0x85944171f73967e8,
    },
    Vector {
        text: "a zero byte",
        bytes: b"\0",
        hash: 0xaf63bd4c8601b7df,
    },
    Vector {
        text: "a and a zero byte",
        bytes: b"a\0",
        hash: 0x089be207b544f1e4,
    },
    Vector {
        text: "foobar and a zero byte",
        bytes: b"foobar\0",
        hash: 0x34531ca7168b8f38,
    },
    Vector {
        text: "chongo was here! and a newline",
        bytes: b"chongo was here!\n",
        hash: 0x46810940eff5f915,
    },
    Vector {
        text: "127.0.0.1",
        bytes: b"127.0.0.1",
        hash: 0xaabafe7104d914be,
    },
    Vector {
        text: "the bytes ff 00 00 01",
        bytes: b"\xff\x00\x00\x01",
        hash: 0x6961196491cc682d,
    },
];

fn main(rt: HostRuntime) -> io::Result<()> {
    for vector in VECTORS.iter() {
        let text = vector.text;
        let hash = hash_of(vector.bytes);
        let judged = if hash == vector.hash {
            "right"
        } else {
            "WRONG"
        };
        println!(rt; "{hash:016x} {judged} {text}")?;
    }
    Ok(())
}
