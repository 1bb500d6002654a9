// What a survey asks.
ghost use Rattle.std.specs.Prelude.{◌≤◌};
ghost use Rattle.laws.specs.search.StepBounds.{Within};
ghost use Rattle.mtb_align.specs.Answers.{shift_in};

use super::difference::Counts;
use super::geometry::Shift;

// Around which centre and how far from it, how many pixels a rival compares at least, and in how many it may disagree.
#[derive(Clone, Copy)]
pub(crate) struct Question {
    pub(crate) centre: Shift,
    pub(crate) reach: usize,
    pub(crate) floor: u64,
    pub(crate) limit: u64,
    pub(crate) ghost near: { Within 65536 (shift_in centre) },
    pub(crate) ghost short: { reach ≤ 64 },
}

impl Question {
    ghost use Rattle.std.specs.Prelude.{◌≡◌};
    ghost use Rattle.definitions.specs.Report.{comes_close};
    ghost use Rattle.laws.specs.report.Windows.{window_at};
    ghost use Rattle.mtb_align.specs.Answers.{counts_in};
    ghost use Rattle.mtb_align.specs.Survey.{question_in};

    // The shift in column i and row j of the window.
    #[tactic(auto, unfolding(laws::specs::report::Windows::window_at))]
    pub(crate) fn shift_at(self, i: usize, j: usize) -> Shift
        requires { (i ≤ 128) × (j ≤ 128) }
        ensures { shift_in result ≡ window_at (shift_in self.centre) self.reach i j }
    {
        let centre = self.centre;
        let reach = self.reach as i32;
        Shift {
            x: centre.x - reach + i as i32,
            y: centre.y - reach + j as i32,
        }
    }

    // Whether both counts at a shift come close enough.
    #[tactic(auto, using(std::proofs::lemmas::Bool::Decides::nat_tests), unfolding(definitions::specs::Report::comes_close))]
    pub(crate) fn comes_close(self, counts: Counts) -> bool
        ensures { result ≡ comes_close (question_in self) (counts_in counts) }
    {
        self.floor <= counts.compared && counts.disagreeing <= self.limit
    }
}
