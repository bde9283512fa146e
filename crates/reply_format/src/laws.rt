//! What holds of every reply's spellings, and of all bytes.
ghost use Rattle.std.specs.Prelude.{◌≡◌, ◌<◌, ℕ, List, All, Result, Ok};
ghost use Rattle.reply_format.specs.Read.{ReadsReply};
ghost use Rattle.reply_format.specs.Reply.{Answers, Expect, IsExpect, IsReply, IsVersion, Reply, reply_bytes};
ghost use Rattle.reply_format.specs.declared.fault.ReplyFault.{ReplyFault};

/// Each reply within its limits, which is one to what is expected, is read back from its bytes in either version.
pub fn replies_are_read_back()
    ensures each { (expect : Expect) (reply : Reply) (version : ℕ) → Answers expect reply → IsReply reply → IsVersion version →
        ReadsReply expect (reply_bytes version reply) (Ok reply) }
{}

/// Where a reply is expected, all bytes are read as one, or come to one first breach: always one of the two, and never
/// two.
pub fn one_reading()
    ensures always { (expect : Expect) (bytes : List ℕ) → IsExpect expect → All (λ byte. byte < 256) bytes →
        (read : Result Reply ReplyFault) × ReadsReply expect bytes read }
    ensures one { (expect : Expect) (bytes : List ℕ) (read other : Result Reply ReplyFault) →
        ReadsReply expect bytes read → ReadsReply expect bytes other → read ≡ other }
{}
