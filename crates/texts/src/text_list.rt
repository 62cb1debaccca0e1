// A text list: whether it is in order and made of whole entries, and where the entry of an ID belongs in it.
ghost use Rattle.std.specs.Prelude.{◌≡◌, true, ◌+◌, ◌≤◌, length, get_or};
ghost use Rattle.words.specs.Words.{of_two_bytes};
ghost use Rattle.baos.specs.Text.{text_lists, text_lists_ok};
ghost use Rattle.baos.specs.TextList.{text_list_ok};
ghost use Rattle.baos.specs.Inner.Cursors.{place_of, Reached};

// What stands in front of an entry's text: its ID and its length.
pub const ENTRY_HEAD: usize = 3;

const LONGEST_TEXT: usize = 30;

// The ID of the entry that begins at `at`.
pub fn id_at(list: &[u8], at: usize) -> u16
    requires { at + 3 ≤ length list.now }
    ensures { result ≡ of_two_bytes (get_or list.now at 0) (get_or list.now (at + 1) 0) }
{
    u16::from_be_bytes([list[at], list[at + 1]])
}

// Whether the bytes are a text list, in one pass.
pub fn text_list_ok(list: &[u8]) -> bool
    ensures { result ≡ text_list_ok list.now }
{
    let mut rest = list;
    // The lowest ID that may come next.
    let mut least: u32 = 0;
    while !rest.is_empty() {
        let [high, low, size, behind @ ..] = rest else {
            return false;
        };
        let size = *size as usize;
        let id = *high as u32 * 256 + *low as u32;
        if LONGEST_TEXT < size || behind.len() < size || id < least {
            return false;
        }
        least = id + 1;
        rest = &behind[size..];
    }
    true
}

// Whether both lists are.
pub fn text_lists_ok<'a>(site: &'a [u8], defaults: &'a [u8]) -> bool
    ensures { result ≡ text_lists_ok (text_lists site.now defaults.now) }
{
    text_list_ok(site) && text_list_ok(defaults)
}

// Where the first entry begins that has this ID or a higher one, from `at` on; the list's end where there is none.
pub fn text_place(list: &[u8], at: usize, id: u16) -> usize
    requires { (text_list_ok list.now ≡ true) × Reached id list.now at }
    ensures { result ≡ place_of id list.now }
{
    let mut place = at;
    // The entries are of different sizes.
    while place < list.len() && id_at(list, place) < id {
        place += ENTRY_HEAD + list[place + 2] as usize;
    }
    place
}
