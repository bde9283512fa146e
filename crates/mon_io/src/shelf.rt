//! Files in memory, of which one is picked and read from its front.
ghost use Rattle.std.specs.Prelude.{◌≡◌, ◌≤◌, [], Some, None, MatchBool, IfSome, length, min, take, drop, option_map};
ghost use Rattle.mon_io.specs.Files.{contents_of, contents_at};

use crate::front::copy_front;

/// Files, the place of the picked one, and how much of it was read. Nothing is picked past the end.
#[derive(Drop)]
pub(crate) struct Shelf {
    pub(crate) files: Vec<(String, Vec<u8>)>,
    pub(crate) picked: usize,
    pub(crate) at: usize,
}

impl Shelf {
    ghost use Rattle.mon_io.specs.Inputs.{Reads, Took};
    ghost use Rattle.mon_io.specs.Shelf.{shelf_rest};

    /// These files, of which none is picked.
    pub(crate) fn new(files: Vec<(String, Vec<u8>)>) -> Self
        ensures files { result.files ≡ files }
        ensures rest { shelf_rest result ≡ [] }
    {
        let picked = files.len();
        Shelf {
            files,
            picked,
            at: 0,
        }
    }

    /// Picks the first file with this name, where there is one; else nothing changes.
    pub(crate) fn pick(&mut self, name: &str) -> bool
        ensures found { MatchBool result
            (contents_of self.old.files.items name.now ≡ Some (shelf_rest self.new))
            ((contents_of self.old.files.items name.now ≡ None) × (self.new ≡ self.old)) }
        ensures files { self.new.files ≡ self.old.files }
    {
        match place_of(&self.files, name) {
            None => false,
            Some(place) => {
                self.picked = place;
                self.at = 0;
                true
            }
        }
    }

    /// Leaves nothing picked.
    pub(crate) fn pick_nothing(&mut self)
        ensures files { self.new.files ≡ self.old.files }
        ensures rest { shelf_rest self.new ≡ [] }
    {
        self.picked = self.files.len();
        self.at = 0;
    }

    /// Takes bytes off the rest, as much as there is or fits into `buf`.
    pub(crate) fn read(&mut self, buf: &mut [u8]) -> usize
        ensures count { result ≡ min (length (shelf_rest self.old)) (length buf.new) }
        ensures taken { Took (Some (shelf_rest self.old)) (Some (shelf_rest self.new)) (take result buf.new) }
        ensures files { self.new.files ≡ self.old.files }
    {
        let count = copy_front(rest_of(&self.files, self.picked, self.at), buf);
        self.at += count;
        count
    }
}

// The place of the first file with this name.
fn place_of(files: &[(String, Vec<u8>)], name: &str) -> Option<usize>
    ensures { option_map (contents_at files.now) result ≡ contents_of files.now name.now }
{
    for (place, file) in files.iter().enumerate() {
        if file.0.as_bytes() == name.as_bytes() {
            return Some(place);
        }
    }
    None
}

// The contents at a place from a byte on, none past their end.
fn rest_of(files: &[(String, Vec<u8>)], place: usize, at: usize) -> &[u8]
    ensures { result.now ≡ drop at (contents_at files.now place) }
{
    match files.get(place) {
        None => &[],
        Some(file) if at < file.1.len() => &file.1[at..],
        Some(_) => &[],
    }
}
