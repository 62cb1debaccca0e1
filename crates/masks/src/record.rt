// The records of a table, whose IDs rise.
ghost use Rattle.std.specs.Prelude.{◌≡◌, ℕ, Bool, ◌&&◌, ltb};

// One record of a table.
pub trait Record {
    ghost id_of: { Self → ℕ };

    // Whether it is well formed.
    ghost ok: { Self → Bool };

    fn id(&self) -> u16
        ensures { result ≡ id_of self.now };

    // Whether it may stand behind a record with the ID `last`: a higher ID, and well formed.
    fn fits_after(&self, last: u16) -> bool
        ensures { result ≡ (ltb last (id_of self.now) && ok self.now) };
}

// Whether four records may stand one behind the other, the first behind one with the ID `last`. Four a turn: one
// loop's jump and count for four records.
#[inline(always)]
pub fn four_fit_after<R: Record>(a: &R, b: &R, c: &R, d: &R, last: u16) -> bool
    ensures { result ≡ (ltb last (R.id_of a.now) && R.ok a.now
        && (ltb (R.id_of a.now) (R.id_of b.now) && R.ok b.now
        && (ltb (R.id_of b.now) (R.id_of c.now) && R.ok c.now
        && (ltb (R.id_of c.now) (R.id_of d.now) && R.ok d.now)))) }
{
    a.fits_after(last) && b.fits_after(a.id()) && c.fits_after(b.id()) && d.fits_after(c.id())
}
