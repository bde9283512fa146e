//! Words that are refused.
use crate::lines::read;
use mon_words::{Opt, UsageFault, WordsFault, read_words};
use std::test::Fail;

#[test]
fn refuses_words(rt: HostRuntime) -> Result<(), Fail> {
    for (line, fault) in [
        ("foo", UsageFault::UnknownCommand),
        ("foo A", UsageFault::UnknownCommand),
        ("", UsageFault::UnknownCommand),
        ("central", UsageFault::Refused),
        ("central A B", UsageFault::Refused),
        ("central A --epoch -5", UsageFault::Refused),
        ("central A --epoch 60 --epoch 60", UsageFault::Refused),
        ("central A --ep 60", UsageFault::Refused),
        ("central A --epoch", UsageFault::Refused),
        ("central --help", UsageFault::Refused),
        ("central A --rows 2 --ep 60", UsageFault::Refused),
        ("total", UsageFault::Refused),
        ("total A --seed 1", UsageFault::Refused),
        ("total A --weight bytes", UsageFault::Refused),
        ("check T", UsageFault::Refused),
        ("check T C D", UsageFault::Refused),
        ("check T C --seed 1", UsageFault::Refused),
    ] {
        let fault = WordsFault::Usage(fault);
        assert_eq!(rt; read(rt.alloc(), line)?.err(), Some(fault), "{line}");
    }
    let none = read_words(rt.alloc(), &[], true).err();
    assert_eq!(rt; none, Some(WordsFault::Usage(UsageFault::NoCommand)));
    Ok(())
}

#[test]
fn refuses_values(rt: HostRuntime) -> Result<(), Fail> {
    for (line, option) in [
        ("central A --seed 18446744073709551616", Opt::Seed),
        ("central A --seed 000000000000000000001", Opt::Seed),
        ("central A --levels 17", Opt::Levels),
        ("central A --rows 2", Opt::Rows),
        ("central A --rows 2 --levels 17", Opt::Levels),
        ("central A --width 24 --rows 2", Opt::Rows),
        ("central A --width 4096", Opt::Width),
        ("central A --heap 1025", Opt::Heap),
        ("central A --heap +1", Opt::Heap),
        ("central A --weight octets", Opt::Weight),
        ("central A --weight 1", Opt::Weight),
        ("central A --weight octets --heap 1025", Opt::Heap),
        ("central A --epoch 0 --weight octets", Opt::Weight),
        ("central A --epoch=", Opt::Epoch),
        ("central A --epoch ", Opt::Epoch),
        ("central A --epoch 0", Opt::Epoch),
        ("central A --epoch 4294967296", Opt::Epoch),
        ("central A --heavy 0 --epoch 6O", Opt::Epoch),
        ("central A --heavy 0", Opt::Heavy),
        ("central A --heavy 1001", Opt::Heavy),
    ] {
        let fault = WordsFault::Usage(UsageFault::Value(option));
        assert_eq!(rt; read(rt.alloc(), line)?.err(), Some(fault), "{line}");
    }
    Ok(())
}
