// The lines of a listing.
ghost use Rattle.sizes.specs.Refusals.{number};
ghost use Rattle.wall_run.specs.Run.{outcomes_in};
ghost use Rattle.listing.specs.Listing.{sizes_line, record_text, sound_line, unsound_line, column_line, line_at, column_lines, refused_line, listing};
ghost use Rattle.listing.specs.Writing.{Puts};

use super::text::Text;
use protocols::Protocol;
use wall_run::{Entry, Refusal};

impl Text<'_> {
    // The sizes of a wall: n and m, t, d, B and the rounds of a run.
    fn put_sizes(&mut self, protocol: Protocol, n: u8, m: u8)
        ensures { Puts (sizes_line protocol n m) self.old self.new }
    {
        self.put_named(b"wall ", n as usize);
        self.put_named(b" ", m as usize);
        self.put_named(b" t ", sizes::faults(n));
        self.put_named(b" d ", sizes::degree(n));
        self.put_named(b" blocks ", sizes::blocks(n, m));
        self.put_named(b" rounds ", protocols::rounds_in(protocol, n));
        self.put(b"\n");
    }

    // What a column ended on.
    #[tactic(auto, unfolding(crate::specs::Listing::record_text, crate::specs::Listing::ascii))]
    fn put_record(&mut self, m: u8, e: Entry)
        ensures { Puts (record_text m e) self.old self.new }
    {
        if e.has_record {
            self.put_hexes(m, &e.bytes);
        } else {
            self.put(b"none");
        }
    }

    // The line of a sound column i.
    fn put_sound(&mut self, m: u8, i: u8, e: Entry)
        ensures { Puts (sound_line m i e) self.old self.new }
    {
        self.put_decimal(i as usize);
        self.put_named(b" sound grade ", e.grade as usize);
        self.put_named(b" bit ", e.vote as usize);
        self.put(b" record ");
        self.put_record(m, e);
        self.put(b"\n");
    }

    // The line of an unsound column i.
    #[tactic(auto, using(crate::specs::Writing::puts_more), unfolding(crate::specs::Listing::unsound_line, crate::specs::Listing::ascii))]
    fn put_unsound(&mut self, i: u8)
        ensures { Puts (unsound_line i) self.old self.new }
    {
        self.put_decimal(i as usize);
        self.put(b" unsound\n");
    }

    // The line of column i, by its mark.
    fn put_column(&mut self, m: u8, i: u8, e: Entry)
        ensures { Puts (column_line m i e) self.old self.new }
    {
        if e.mark == 0 {
            self.put_sound(m, i, e);
        } else {
            self.put_unsound(i);
        }
    }

    // The line of column i + 1; none past column 31, as a wall has no more.
    #[tactic(auto, using(crate::specs::Writing::puts_none), unfolding(crate::specs::Listing::line_at))]
    fn put_line(&mut self, m: u8, entries: [Entry; 31], i: u8)
        ensures { Puts (line_at m entries i) self.old self.new }
    {
        let place = i as usize;
        if place < 31 {
            self.put_column(m, i + 1, entries[place]);
        }
    }

    // The lines of columns 1 to n. By number, which each line begins with.
    fn put_columns(&mut self, n: u8, m: u8, entries: [Entry; 31])
        ensures { Puts (column_lines n m entries) self.old self.new }
    {
        for i in 0..n {
            self.put_line(m, entries, i);
        }
    }

    // The one line of a refused run.
    #[tactic(auto, using(crate::specs::Writing::puts_more), unfolding(crate::specs::Listing::refused_line, crate::specs::Listing::ascii))]
    fn put_refused(&mut self, why: Refusal)
        ensures { Puts (refused_line (number why)) self.old self.new }
    {
        self.put_named(b"refused ", why.number() as usize);
        self.put(b"\n");
    }

    // The listing of a wall of n columns and records of m bytes, of what its run came to.
    pub(super) fn put_listing(
        &mut self,
        protocol: Protocol,
        n: u8,
        m: u8,
        came: Result<[Entry; 31], Refusal>,
    )
        ensures { Puts (listing protocol n m (outcomes_in n came)) self.old self.new }
    {
        match came {
            Ok(entries) => {
                self.put_sizes(protocol, n, m);
                self.put_columns(n, m, entries);
            }
            Err(why) => self.put_refused(why),
        }
    }
}
