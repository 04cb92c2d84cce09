// Dictionaries.

ghost use Rattle.std.specs.Prelude.{◌≡◌, ◌+◌, ◌≤◌, length, IfSome};
ghost use Rattle.cap_words.specs.Seen.{seen};
ghost use Rattle.cap_words.specs.Store.{used};
ghost use Rattle.instr_table.specs.Dictionary.{entries, entries_to};
ghost use Rattle.vm_dict.specs.Made.{Takes, HasRoom};
ghost use Rattle.vm_dict.specs.Calls.{value_at, found, added_in, set_in, deleted_in, copied_in};

use crate::cells::{LONGEST, entry, take_entry};
use cap_words::{Quad, Word, is_same};
use quad_memory::Quads;

// An entry, and how many are before it.
#[derive(Clone, Copy)]
pub(crate) struct Found {
    pub before: u32,
    pub entry: Quad,
}

// The first entry with a key.
pub(crate) fn find(quads: &Quads, dict: Word, key: Word) -> Option<Found>
    ensures found { result ≡ found key (entries (seen quads.now.store) dict) }
    ensures bound { IfSome result (λ f. f.before ≤ 4095) }
{
    let mut at = dict;
    for before in 0..LONGEST {
        match entry(quads, at) {
            Some(e) => {
                if is_same(e.x, key) {
                    return Some(Found { before, entry: e });
                }
                at = e.z;
            }
            None => return None,
        }
    }
    None
}

/// The value under a key: that of the first entry with it. None where there is no such entry.
pub fn dict_get(quads: &Quads, dict: Word, key: Word) -> Option<Word>
    ensures { result ≡ value_at (seen quads.now.store) dict key }
{
    Some(find(quads, dict, key)?.entry.y)
}

/// Puts an entry in front.
pub fn dict_add(quads: &mut Quads, dict: Word, key: Word, value: Word) -> Word
    requires { HasRoom quads.old (added_in quads.old dict key value).cells }
    ensures cells { Takes quads.old quads.new (added_in quads.old dict key value).cells }
    ensures word { result ≡ (added_in quads.old dict key value).word }
{
    take_entry(quads, key, value, dict)
}

/// Replaces the first entry with the key and copies those before it; or puts an entry in front where no entry has the key.
pub fn dict_set(quads: &mut Quads, dict: Word, key: Word, value: Word) -> Word
    requires { HasRoom quads.old (set_in quads.old dict key value).cells }
    ensures cells { Takes quads.old quads.new (set_in quads.old dict key value).cells }
    ensures word { result ≡ (set_in quads.old dict key value).word }
{
    match find(quads, dict, key) {
        Some(f) => {
            let tail = take_entry(quads, key, value, f.entry.z);
            copy_first(quads, dict, f.before, tail)
        }
        None => take_entry(quads, key, value, dict),
    }
}

/// Leaves the first entry with the key out and copies those before it; or gives the dictionary as it stands where no entry has the key.
pub fn dict_del(quads: &mut Quads, dict: Word, key: Word) -> Word
    requires { HasRoom quads.old (deleted_in quads.old dict key).cells }
    ensures cells { Takes quads.old quads.new (deleted_in quads.old dict key).cells }
    ensures word { result ≡ (deleted_in quads.old dict key).word }
{
    match find(quads, dict, key) {
        Some(f) => copy_first(quads, dict, f.before, f.entry.z),
        None => dict,
    }
}

// Copies the first `count` entries in front of a tail, the last of them first: at most 4,095 calls stand at a time.
fn copy_first(quads: &mut Quads, dict: Word, count: u32, tail: Word) -> Word
    requires whole { length (entries_to (seen quads.old.store) count dict) ≡ count }
    requires room { used quads.old.store + count ≤ quads.old.room }
    ensures cells { Takes quads.old quads.new (copied_in quads.old count dict tail).cells }
    ensures word { result ≡ (copied_in quads.old count dict tail).word }
{
    if count == 0 {
        return tail;
    }
    match entry(quads, dict) {
        Some(e) => {
            let next = copy_first(quads, e.z, count - 1, tail);
            take_entry(quads, e.x, e.y, next)
        }
        None => unreachable!(),
    }
}
