//! The numbers of a sketch, and of what is printed of it.
ghost use Rattle.std.specs.Prelude.{◌≡◌, ◌≤◌, IfSome, IsTrue};
ghost use Rattle.mon_words.specs.Values.{IsInRange};
ghost use Rattle.mon_call.specs.Setting.{is_setting, setting_in};

use mon_words::Words;
use routed_trace::Division;

/// The numbers of a sketch, each within its limits; a heap of 0 keeps every live key. A heavy key has at least
/// `heavy` thousandths of the weight.
#[derive(Clone, Copy, Debug, PartialEq, Eq)]
pub struct Setting {
    pub seed: u64,
    pub levels: u8,
    pub rows: u8,
    pub width: u16,
    pub heap: u16,
    pub division: Division,
    pub heavy: u32,
}

impl Setting {
    /// The numbers that the words give.
    pub fn of(words: &Words) -> Setting
        requires { IsInRange words.now }
        ensures value { result ≡ setting_in words.now }
        ensures range { IsTrue (is_setting result) }
    {
        Setting {
            seed: words.seed,
            levels: words.levels,
            rows: words.rows,
            width: words.width,
            heap: words.heap,
            division: Division {
                seconds: words.epoch,
                bytes: words.bytes,
            },
            heavy: words.heavy,
        }
    }
}
