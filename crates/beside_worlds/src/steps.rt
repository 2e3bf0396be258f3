//! Steps of a file of one ward, of pages of two records and of keyer plain, with two copies: each with
//! what it comes to.

/// A step, and what it comes to.
#[derive(Clone, Copy)]
pub(crate) enum Step {
    /// A line of a script that reaches a page, and what it prints. Replies tell their moves.
    Line(&'static str, &'static str),
    /// One that reaches none.
    Far(&'static str, &'static str),
}

impl Step {
    /// Whether a page out of reach refuses it.
    pub(crate) fn reaches_a_page(&self) -> bool {
        !matches!(self, Step::Far(..))
    }
}

/// How many steps there are.
pub(crate) const STEP_COUNT: usize = 51;

/// Events and views of each kind, also refused ones: the three keys, a late table, a copy that restarts, a
/// request that is on its way while its page is merged away and is live again; a page with the buddy split;
/// a page below it that is live again. In the end page 0 has the prefix `0`, page 1 `10`, page 2 `11`, and
/// page 3 is merged away into page 2.
pub(crate) const STEPS: [Step; STEP_COUNT] = [
    Step::Line("begin r1 c1 1 put #00 a", "r1 at 0/0\n"),
    Step::Line("hop r1", "r1 new moves 0 of 0\n"),
    Step::Line("begin r2 c1 1 put #80 b", "r2 at 0/0\n"),
    Step::Line("hop r2", "r2 new moves 0 of 0\n"),
    Step::Line("begin r3 c1 1 put #40 x", "r3 at 0/0\n"),
    Step::Line("hop r3", "r3 split\n"),
    Step::Line("split 0 0", "notice 0/1 prefix - number 1 split right 1\n"),
    Step::Line("hop r3", "r3 new moves 0 of 1\n"),
    Step::Far("deliver 1 0 1", "copy 1 took 0/1\n"),
    Step::Far("send 1", "table 1\n"),
    Step::Line("merge 0 0", "refused 8\n"),
    Step::Line("begin r4 c1 1 get #80", "r4 at 0/1\n"),
    Step::Line("begin r5 c1 1 del #40", "r5 at 0/0\n"),
    Step::Line("hop r5", "r5 was x moves 0 of 0\n"),
    Step::Line("merge 0 0", "notice 0/2 prefix - number 2 merge\n"),
    Step::Line("page 0 1", "page 0/1 forward 0/0\n"),
    Step::Far("deliver 2 0 2", "copy 2 took 0/2\n"),
    Step::Far("combine 2 1", "copy 2 joined 1\n"),
    Step::Far("restart 2", "copy 2 restarted\n"),
    Step::Line("split 0 0", "notice 0/3 prefix - number 3 split right 1\n"),
    Step::Far("inflight", "inflight 1\nr4 at 0/1\n"),
    Step::Line("hop r4", "r4 is b moves 0 of 2\n"),
    Step::Line("page 0 1", "page 0/1 live prefix 1 right none records 1\n"),
    Step::Line("begin r6 c1 2 get #80", "r6 at 0/0\n"),
    Step::Line("hop r6", "r6 moved 0/1\n"),
    Step::Line("hop r6", "r6 is b moves 1 of 1\n"),
    Step::Far("combine 2 1", "copy 2 joined 1\n"),
    Step::Line("begin r7 c1 2 put #c0 y", "r7 at 0/1\n"),
    Step::Line("hop r7", "r7 new moves 0 of 0\n"),
    Step::Line("split 0 1", "notice 0/4 prefix 1 number 1 split right 2\n"),
    Step::Line("merge 0 0", "refused 7\n"),
    Step::Line("begin r8 c1 2 get #c0", "r8 at 0/1\n"),
    Step::Line("hop r8", "r8 moved 0/2\n"),
    Step::Line("hop r8", "r8 is y moves 1 of 1\n"),
    Step::Line("merge 0 1", "notice 0/5 prefix 1 number 2 merge\n"),
    Step::Line("split 0 1", "notice 0/6 prefix 1 number 3 split right 2\n"),
    Step::Line("begin r9 c1 2 put #c0 z", "r9 at 0/1\n"),
    Step::Line("hop r9", "r9 moved 0/2\n"),
    Step::Line("hop r9", "r9 was y moves 1 of 1\n"),
    Step::Line("begin r10 c1 2 put #e0 w", "r10 at 0/1\n"),
    Step::Line("hop r10", "r10 moved 0/2\n"),
    Step::Line("hop r10", "r10 new moves 1 of 1\n"),
    Step::Line("split 0 2", "notice 0/7 prefix 11 number 1 split right 3\n"),
    Step::Line("merge 0 2", "notice 0/8 prefix 11 number 2 merge\n"),
    Step::Line("begin r11 c1 1 get #80", "r11 at 0/1\n"),
    Step::Far("send 2", "table 2\n"),
    Step::Far("inflight", "inflight 1\nr11 at 0/1\n"),
    Step::Far(
        "show 1",
        "copy 1 depth 1\nentry - number 1 split right 1\nleaf 0 0/0\nleaf 1 0/1\n",
    ),
    Step::Far(
        "show 2",
        "copy 2 depth 1\nentry - number 1 split right 1\nleaf 0 0/0\nleaf 1 0/1\n",
    ),
    Step::Line("page 0 3", "page 0/3 forward 0/2\n"),
    Step::Far("page 0 4", "refused 1\n"),
];
