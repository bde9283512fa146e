//! What holds of every tree's text and bytes, and of every text and all bytes.
ghost use Rattle.std.specs.Prelude.{◌≡◌, ◌<◌, ℕ, List, ◌++◌, length, IsTrue, Result, Ok, All};
ghost use Rattle.bound_certificate.specs.Formed.{is_formed};
ghost use Rattle.bound_certificate.specs.declared.tree.Tree.{Tree};
ghost use Rattle.certificate_text.specs.Bytes.{bytes_of};
ghost use Rattle.certificate_text.specs.ReadBytes.{ReadsBytes};
ghost use Rattle.certificate_text.specs.ReadText.{ReadsText};
ghost use Rattle.certificate_text.specs.Text.{text_of};
ghost use Rattle.certificate_text.specs.declared.fault.CertFault.{CertFault};
ghost use Rattle.certificate_text.specs.declared.fault.TreeBytesFault.{TreeBytesFault};

/// Each tree within its limits is read back from its text, which is never too long, and from its bytes, whatever
/// follows them.
pub fn trees_are_read_back()
    ensures text { (tree : Tree) → IsTrue (is_formed tree) → ReadsText (text_of tree) (Ok tree) }
    ensures bytes { (tree : Tree) (rest : List ℕ) → IsTrue (is_formed tree) →
        ReadsBytes (bytes_of tree ++ rest) (Ok (tree, length (bytes_of tree))) }
{}

/// Each text is read as one tree, or comes to one fault: always one of the two, and never two. So are bytes.
pub fn one_reading()
    ensures always_text { (text : List ℕ) → (read : Result Tree CertFault) × ReadsText text read }
    ensures one_text { (text : List ℕ) (read other : Result Tree CertFault) →
        ReadsText text read → ReadsText text other → read ≡ other }
    ensures always_bytes { (bytes : List ℕ) → All (λ byte. byte < 256) bytes →
        (read : Result (Tree × ℕ) TreeBytesFault) × ReadsBytes bytes read }
    ensures one_bytes { (bytes : List ℕ) (read other : Result (Tree × ℕ) TreeBytesFault) →
        ReadsBytes bytes read → ReadsBytes bytes other → read ≡ other }
{}
