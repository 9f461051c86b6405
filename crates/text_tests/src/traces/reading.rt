// Texts that are read: each kind of line once and back, and each way to be wrong, with its line.
ghost use Rattle.std.specs.Prelude.{IfOk};
ghost use Rattle.vio_trace.specs.Form.{IsInOrder};

use super::lans::LANS;
use super::windows::WINDOWS;
use super::{EACH_KIND, ONE_COMMAND, is_text_of};
use std::alloc::Global;
use std::test::Fail;
use vio_num::NoMemory;
use vio_trace::{TraceFault, read_trace};

/// Whether the text is read as a trace and written again the same; why it is not read, if it is not.
fn comes_back(alloc: Global, text: &[u8]) -> Result<bool, TraceFault> {
    match is_text_of(alloc, read_trace(alloc, text)?, text) {
        Ok(is_same) => Ok(is_same),
        Err(NoMemory) => Err(TraceFault::NoMemory),
    }
}

#[test]
fn texts_come_back(rt: HostRuntime) -> Result<(), Fail> {
    let texts = [
        EACH_KIND,
        ONE_COMMAND,
        WINDOWS,
        LANS,
        RECORDS,
        b"trace 1\nend\n",
    ];
    for text in texts {
        assert_eq!(rt; comes_back(rt.alloc(), text), Ok(true));
    }
    Ok(())
}

#[test]
fn first_bad_line(rt: HostRuntime) -> Result<(), Fail> {
    for (text, line) in BAD.iter() {
        let line = *line;
        assert_eq!(rt; comes_back(rt.alloc(), text), Err(TraceFault::Bad { line }));
    }
    Ok(())
}

static BAD: [(&[u8], u64); 42] = [
    (b"", 1),
    (b"trace 1", 1),
    (b"trace 2\nend\n", 1),
    (b"trace 1\n", 2),
    (b"trace 1\nend", 2),
    (b"trace 1\nend\n\n", 3),
    (b"trace 1\nend\nx", 3),
    (b"trace 1\n\nend\n", 2),
    (b"trace 1\nlog  1 9 done\nend\n", 2),
    (b"trace 1\nlog 1 9 done \nend\n", 2),
    (b"trace 1\nlog 1 9 granted 08\nend\n", 2),
    (b"trace 1\nlog 1 9 granted 4294967296\nend\n", 2),
    (b"trace 1\nlog 256 9 done\nend\n", 2),
    (b"trace 1\nlog 1 9 gone\nend\n", 2),
    (b"trace 1\nlog 1 9 code -3\nend\n", 2),
    (b"trace 1\nlog 1 9 code 1 value 0000000000000000\nend\n", 2),
    (b"trace 1\nlog 1 9 rejected 0001000g\nend\n", 2),
    (b"trace 1\nlog 1 9 bytes -\nend\n", 2),
    (b"trace 1\nlog 1 9 bytes 0\nend\n", 2),
    (b"trace 1\nlog 1 9 bytes 0A\nend\n", 2),
    (b"trace 1\nlog 1 9 done\nlog 1 9 done\nend\n", 3),
    (b"trace 1\nlog 1 9 done\nlog 0 10 done\nend\n", 3),
    (b"trace 1\nqueue 0.0 1 256 1 0 0\nend\n", 3),
    (b"trace 1\nqueue 0.0 1 256 1 0 0\nsent 0 0\nend\n", 3),
    (
        b"trace 1\nqueue 0.0 1 256 0 0 0\nsent 0000000000000000 0000000000000000\nend\n",
        3,
    ),
    (
        b"trace 1\nqueue 0.0 2 256 0 0 0\nqueue 0.0 1 256 1 0 0\nend\n",
        3,
    ),
    (
        b"trace 1\nqueue 0.0 1 256 0 18446744073709551615 0\nend\n",
        3,
    ),
    (
        b"trace 1\nqueue 0.0 2 256 0 0 0\nqueue 0.0 1 256 0 2 0\ntook 0 0\nend\n",
        3,
    ),
    (
        b"trace 1\nqueue 0.0 1 256 1 1 1\nsent 0000000000000000 0000000000000000\ntook 0 0\n",
        4,
    ),
    (
        b"trace 1\nqueue 0.0 1 256 0 0 2\ndrop 0 0000000000000000\nend\n",
        4,
    ),
    (
        b"trace 1\nqueue 1.1 18446744073709551615 1 0 0 2\ndrop 0 0000000000000000\n",
        4,
    ),
    (
        b"trace 1\ngrant 0.0 1 1 1 8\nqueue 0.0 1 256 0 0 0\nend\n",
        3,
    ),
    (b"trace 1\nlapse 0.0 1 1 gone 0 0\nend\n", 2),
    (b"trace 1\nserve 0.0 1 1 2 - - -1 - -\nend\n", 2),
    (b"trace 1\nanswer 0 1 2 -\nend\n", 2),
    (
        b"trace 1\nframe 1.0 7 0 0 -\noffer 1.0 8 0.0 done\nend\n",
        3,
    ),
    (
        b"trace 1\nframe 1.0 7 0 0 -\nfrom 1.0 2 0 3 64 20 5\nend\n",
        3,
    ),
    (
        b"trace 1\ndeliver 0.0 2 1 1.0 7 frame 0\ndeliver 0.0 1 1 1.0 7 frame 0\nend\n",
        3,
    ),
    (
        b"trace 1\ncopy 0.0 5 0 0 1\nfrom 1.0 2 0 3 64 20 5\nend\n",
        3,
    ),
    (
        b"trace 1\ncopy 0.0 5 0 1 1\nfrom 1.0 2 0 3 64 20 5\nto 1.0 2 0 3 64 20\nend\n",
        4,
    ),
    (
        b"trace 1\nframe 1.0 7 0 2 -\nfrom 1.0 2 0 3 64 20 5\noffer 1.0 7 0.0 done\nend\n",
        4,
    ),
    (b"trace 1\nstroke 0.0 0 0 0.0 0 0 AB\nend\n", 2),
];

/// A record of each form.
const RECORDS: &[u8] = b"trace 1\n\
log 1 9 granted 8\n\
log 1 10 rejected 00010000\n\
log 1 11 lost\n\
log 1 12 none\n\
log 1 13 sent 18446744073709551615\n\
log 1 14 range\n\
log 1 15 notlogged\n\
log 1 16 nocredit 0\n\
log 1 17 overlap 7\n\
log 1 18 closed\n\
log 1 19 dropped 3 8001000000000030\n\
log 1 20 took 0\n\
log 1 21 took 2 lost\n\
log 1 22 ok 512 65536\n\
log 1 23 stale 65535\n\
log 1 24 unknown\n\
log 1 25 code -16\n\
log 1 26 code 0\n\
log 1 27 code 0 value 000000000000f003\n\
log 1 28 posted 1024 code -4\n\
log 1 29 code -12 frame 9\n\
log 1 30 code 2 frame 10\n\
log 1 31 done\n\
log 1 32 bytes 00ff\n\
end\n";
