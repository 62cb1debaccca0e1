// The text of an ID, from two lists. Both are searched forward, by cursors, so that rising IDs cost one pass over each.
ghost use Rattle.std.specs.Prelude.{◌≡◌, true};
ghost use Rattle.baos.specs.TextList.{text_list_ok};
ghost use Rattle.baos.specs.Text.{text_lists, text_lists_ok, stretch_of, HandedOn};
ghost use Rattle.baos.specs.Inner.Cursors.{place_of, cursors_of, BothReached};
ghost use Rattle.texts.specs.Found.{TextIn};

use crate::text_list::{ENTRY_HEAD, id_at, text_place};
use baos::inner::Cursors;

// The start of both lists.
pub const AT_START: Cursors = Cursors {
    site: 0,
    defaults: 0,
};

// The two lists that are lent, both in order: the site's own, and the one that we ship.
#[derive(Clone, Copy)]
pub struct TextLists<'a> {
    pub site: &'a [u8],
    pub defaults: &'a [u8],
    pub ghost in_order: { text_lists_ok (text_lists site.now defaults.now) ≡ true },
}

impl<'a> TextLists<'a> {
    // The cursors, moved forward to where the entries of this ID belong.
    pub fn cursors_at(self, from: Cursors, id: u16) -> Cursors
        requires { BothReached id (text_lists self.site.now self.defaults.now) from }
        ensures { result ≡ cursors_of id (text_lists self.entry.site.now self.entry.defaults.now) }
    {
        Cursors {
            site: text_place(self.site, from.site, id),
            defaults: text_place(self.defaults, from.defaults, id),
        }
    }

    // The text of this ID, by cursors that were moved to it: the site's, failing that the one that we ship, failing
    // that the empty start of the default list.
    pub fn text_of(self, at: Cursors, id: u16) -> &'a [u8]
        requires { at ≡ cursors_of id (text_lists self.site.now self.defaults.now) }
        ensures { HandedOn (stretch_of id (text_lists self.entry.site.now self.entry.defaults.now)) self.entry.site
            self.entry.defaults result }
    {
        if let Some(own) = text_in(self.site, at.site, id) {
            return own;
        }
        match text_in(self.defaults, at.defaults, id) {
            Some(shipped) => shipped,
            None => &self.defaults[..0],
        }
    }
}

// The text of this ID in a list in which its entry belongs at `at`, where it has one that is not empty.
fn text_in<'a>(list: &'a [u8], at: usize, id: u16) -> Option<&'a [u8]>
    requires { (text_list_ok list.now ≡ true) × (at ≡ place_of id list.now) }
    ensures { TextIn id list.entry result }
{
    if list.len() <= at || id_at(list, at) != id {
        return None;
    }
    let size = list[at + 2] as usize;
    if size == 0 {
        return None;
    }
    let from = at + ENTRY_HEAD;
    Some(&list[from..from + size])
}
