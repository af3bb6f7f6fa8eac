//! The texts of the worked examples: automata, and what is left for them.

/// A ring of three states by one letter.
pub(crate) const RING: &str = "[0]\na,[0]->[1]\na,[1]->[2]\na,[2]->[0]\n[0]\n";

/// One state with a loop by `a`.
pub(crate) const LOOP_A: &str = "[0]\na,[0]->[0]\n[0]\n";

/// One state with a loop by `b`.
pub(crate) const LOOP_B: &str = "[0]\nb,[0]->[0]\n[0]\n";

/// Every word of two letters.
pub(crate) const ALL: &str = "[0]\na,[0]->[0]\nb,[0]->[0]\n[0]\n";

/// Infinitely many `a`.
pub(crate) const OFTEN_A: &str = "[0]\na,[0]->[1]\nb,[0]->[0]\na,[1]->[1]\nb,[1]->[0]\n[1]\n";

/// From some time on `a` alone, guessed.
pub(crate) const FROM_SOME_TIME_A: &str =
    "[0]\na,[0]->[0]\nb,[0]->[0]\na,[0]->[1]\na,[1]->[1]\n[1]\n";

/// An `a` and then a `b`, guessed, again and again.
pub(crate) const OFTEN_BOTH_GUESSED: &str =
    "[0]\na,[0]->[0]\nb,[0]->[0]\na,[0]->[1]\nb,[1]->[0]\n[1]\n";

/// Words of an even number of letters.
pub(crate) const EVEN: &str = "[0]\na,[0]->[1]\na,[1]->[0]\n[0]\n";

/// A ring whose last letter is another.
pub(crate) const NEAR_RING: &str = "[0]\na,[0]->[1]\na,[1]->[2]\nb,[2]->[0]\n[0]\n";

/// One letter for ever.
pub(crate) const A_OR_B_FOR_EVER: &str =
    "[0]\na,[0]->[1]\nb,[0]->[2]\na,[1]->[1]\nb,[2]->[2]\n[1]\n[2]\n";

/// Some `a`, and then `b` for ever.
pub(crate) const A_THEN_B: &str = "[0]\na,[0]->[0]\nb,[0]->[1]\nb,[1]->[1]\n[1]\n";

/// No accepting state on a cycle.
pub(crate) const NO_GOAL: &str = "[0]\na,[0]->[0]\nb,[0]->[1]\n[1]\n";

/// The first letter chooses between two states.
pub(crate) const SPLIT: &str =
    "[0]\na,[0]->[1]\na,[0]->[2]\nb,[1]->[3]\nc,[2]->[3]\nd,[3]->[3]\n[3]\n";

/// One state in place of the two of `SPLIT`.
pub(crate) const JOINED: &str = "[0]\na,[0]->[1]\nb,[1]->[2]\nc,[1]->[2]\nd,[2]->[2]\n[2]\n";

/// Two states that do the same.
pub(crate) const TWINS: &str = "[0]\na,[0]->[1]\na,[0]->[2]\nb,[1]->[0]\nb,[2]->[0]\n[1]\n[2]\n";

/// The accepting state comes behind the second letter.
pub(crate) const LATE: &str = "[0]\na,[0]->[1]\nb,[1]->[2]\na,[2]->[1]\n[2]\n";

/// The accepting state comes before the first letter.
pub(crate) const EARLY: &str = "[0]\na,[0]->[1]\nb,[1]->[0]\n[0]\n";

/// Names and labels of several words.
pub(crate) const NAMES: &str =
    "[start]\ngo right,[start]->[far end]\ngo left,[far end]->[start]\n[start]\n";

/// Moves alone.
pub(crate) const NO_INITIAL: &str = "a,[5]->[7]\nb,[7]->[5]\n";

/// Lines that stand twice.
pub(crate) const TWICE: &str = "[0]\na,[0]->[0]\na,[0]->[0]\n[0]\n[0]\n";

/// The last line has no line feed.
pub(crate) const NO_LAST_LINE_FEED: &str = "[0]\na,[0]->[0]\n[0]";

/// Lines that end in two bytes.
pub(crate) const CR: &str = "[0]\r\na,[0]->[0]\r\n[0]\r\n";

/// A line without a byte.
pub(crate) const BLANK: &str = "[0]\n\na,[0]->[0]\n[0]\n";

/// A move without its arrow.
pub(crate) const NO_ARROW: &str = "[0]\na,[0]-[0]\n[0]\n";

/// Two lines of a state before the first move.
pub(crate) const TWO_INITIAL: &str = "[0]\n[1]\na,[0]->[1]\n";

/// A label of two bytes.
pub(crate) const UMLAUT: &str = "[0]\né,[0]->[0]\n[0]\n";

/// No byte.
pub(crate) const NOTHING: &str = "";

/// What `include` leaves for `ALL` and `OFTEN_A`.
pub(crate) const ALL_IN_OFTEN_A: &str =
    "rabit-cert 1 buchi no\nsizes 1 2 2\nprefix 1\nloop 1\nend\n";

/// What `include` leaves for `FROM_SOME_TIME_A` and `OFTEN_A`.
pub(crate) const FROM_SOME_TIME_A_IN_OFTEN_A: &str =
    "rabit-cert 1 buchi yes\nsizes 2 2 2\nlog1 0\nlog2 0\nrel 2\nrow 0 0 1\nrow 1 1\nelements 4\nunder 2 base 0\nlive base 1\nlive base 2\nlive base 3\ncover 2 1 2 3\nstep 1 1\nstep 2 2 1 2\nstep 3 3\nend\n";

/// What `include` leaves for `OFTEN_A` and `FROM_SOME_TIME_A`.
pub(crate) const OFTEN_A_IN_FROM_SOME_TIME_A: &str =
    "rabit-cert 1 buchi no\nsizes 2 2 2\nprefix 0 1\nloop 0 1\nend\n";

/// What `include` leaves for `OFTEN_BOTH_GUESSED` and `OFTEN_A`.
pub(crate) const OFTEN_BOTH_GUESSED_IN_OFTEN_A: &str =
    "rabit-cert 1 buchi yes\nsizes 2 2 2\nlog1 0\nlog2 0\nrel 2\nrow 0 0 1\nrow 1 1\nelements 7\nunder 2 base 0\nlive base 1\nlive base 2\nlive base 3\nlive next 1 3\nlive next 3 1\nlive next 5 3\ncover 2 1 2 3\nstep 1 4\nstep 2 2 1 2\nstep 3 3 5 3\nstep 4 4 1 4\nstep 5 6\nstep 6 6 5 6\nend\n";

/// What `include` leaves for `A_OR_B_FOR_EVER` and `ALL`.
pub(crate) const A_OR_B_FOR_EVER_IN_ALL: &str =
    "rabit-cert 1 buchi yes\nsizes 3 1 2\nlog1 0\nlog2 0\nrel 1\nrow 0 0\nelements 4\nlive base 0\nlive base 1\nlive base 2\nlive base 3\ncover 0 1 2 3\nstep 0 0\nstep 1 1\nstep 2 2\nstep 3 3\nend\n";

/// What `include` leaves for `RING` and `LOOP_A`.
pub(crate) const RING_IN_LOOP_A: &str =
    "rabit-cert 1 buchi yes\nsizes 3 1 1\nlog1 1\nmerge\nclasses 0 0 0\nlog2 0\nrel 1\nrow 0 0\nelements 1\nlive base 0\ncover 0\nstep 0 0\nend\n";

/// What `include` leaves for `LOOP_A` and `RING`.
pub(crate) const LOOP_A_IN_RING: &str =
    "rabit-cert 1 buchi yes\nsizes 1 3 1\nlog1 0\nlog2 1\nmerge delayed\nclasses 0 0 0\nrel 3\nrow 0 0 1 1 3 2 2\nrow 1 0 1 1 3 2 2\nrow 2 0 1 1 3 2 2\nrel 1\nrow 0 0\nelements 1\nlive base 0\ncover 0\nstep 0 0\nend\n";

/// What `include` leaves for `NEAR_RING` and `LOOP_A`.
pub(crate) const NEAR_RING_IN_LOOP_A: &str =
    "rabit-cert 1 buchi no\nsizes 3 1 2\nprefix 0 0 1\nloop 0 0 1\nend\n";

/// What `include` leaves for `NEAR_RING` and `NEAR_RING`.
pub(crate) const NEAR_RING_IN_NEAR_RING: &str =
    "rabit-cert 1 buchi yes\nsizes 3 3 2\nlog1 0\nlog2 0\nrel 3\nrow 0 0\nrow 1 1\nrow 2 2\nelements 12\nlive base 0\nlive base 1\nlive base 2\nlive next 0 1\nlive next 1 2\nlive next 2 0\nlive next 3 2\nlive next 4 0\nlive next 5 1\nlive next 6 0\nlive next 7 1\nlive next 9 1\ncover 0 1 2\nstep 0 3\nstep 1 4\nstep 2 5\nstep 3 6\nstep 4 7\nstep 5 8\nstep 6 9\nstep 7 10\nstep 8 2\nstep 9 11\nstep 10 4\nstep 11 6\nend\n";

/// What `include` leaves for `LOOP_B` and `LOOP_A`.
pub(crate) const LOOP_B_IN_LOOP_A: &str =
    "rabit-cert 1 buchi no\nsizes 1 1 2\nprefix 0\nloop 0\nend\n";

/// What `include` leaves for `NO_GOAL` and `LOOP_A`.
pub(crate) const NO_GOAL_IN_LOOP_A: &str =
    "rabit-cert 1 buchi yes\nsizes 2 1 2\nlog1 1\ntrim\nlog2 0\nrel 1\nrow 0 0\nelements 0\ncover\nend\n";

/// What `include` leaves for `LOOP_A` and `NO_GOAL`.
pub(crate) const LOOP_A_IN_NO_GOAL: &str =
    "rabit-cert 1 buchi no\nsizes 1 2 2\nprefix 0\nloop 0\nend\n";

/// What `include` leaves for `SPLIT` and `JOINED`.
pub(crate) const SPLIT_IN_JOINED: &str =
    "rabit-cert 1 buchi yes\nsizes 4 3 4\nlog1 1\nmerge\nclasses 0 1 1 2\nlog2 0\nrel 3\nrow 0 0\nrow 1 1\nrow 2 2\nelements 4\nlive base 0\nlive base 1\nlive base 3\nlive next 0 1\ncover 0 1 1 2\nstep 0 3 3\nstep 1 1\nstep 2 2\nstep 3 3\nend\n";

/// What `include` leaves for `JOINED` and `SPLIT`, with its options.
pub(crate) const JOINED_IN_SPLIT_LOOK: &str =
    "rabit-cert 1 buchi yes\nsizes 3 4 4\nlog1 0\nlog2 1\nmerge backward 2\nclasses 0 1 1 2\nrel 4\nrow 0 0\nrow 1 1 2\nrow 2 1 2\nrow 3 3\nrel 3\nrow 0 0\nrow 1 1\nrow 2 2\nelements 4\nlive base 0\nlive base 1\nlive base 3\nlive next 0 1\ncover 0 1 1 2\nstep 0 3 3\nstep 1 1\nstep 2 2\nstep 3 3\nend\n";

/// What `include` leaves for `LATE` and `EARLY`.
pub(crate) const LATE_IN_EARLY: &str =
    "rabit-cert 1 buchi yes\nsizes 3 2 2\nlog1 1\nmerge\nclasses 0 1 0\nlog2 0\nrel 2\nrow 0 0\nrow 1 1\nelements 5\nlive base 0\nlive base 1\nlive next 0 1\nlive next 1 0\nlive next 2 0\ncover 0 1\nstep 0 2\nstep 1 3\nstep 2 4\nstep 3 1\nstep 4 2\nend\n";

/// What `include` leaves for `TWINS` and `EARLY`.
pub(crate) const TWINS_IN_EARLY: &str =
    "rabit-cert 1 buchi yes\nsizes 3 2 2\nlog1 1\nmerge\nclasses 0 1 1\nlog2 0\nrel 2\nrow 0 0\nrow 1 1\nelements 5\nlive base 0\nunder 4 base 1\nlive next 0 1\nlive next 1 0\nlive next 3 1\ncover 0 4\nstep 0 2\nstep 2 0\nstep 3 4\nstep 4 3\nend\n";

/// What `include` leaves for `NAMES` and `NAMES`.
pub(crate) const NAMES_IN_NAMES: &str =
    "rabit-cert 1 buchi yes\nsizes 2 2 2\nlog1 0\nlog2 0\nrel 2\nrow 0 0\nrow 1 1\nelements 5\nlive base 0\nlive base 1\nlive next 0 1\nlive next 1 0\nlive next 2 0\ncover 0 1\nstep 0 2\nstep 1 3\nstep 2 4\nstep 3 1\nstep 4 2\nend\n";

/// What `include` leaves for `NO_INITIAL` and `NO_INITIAL`.
pub(crate) const NO_INITIAL_IN_NO_INITIAL: &str =
    "rabit-cert 1 buchi yes\nsizes 2 2 2\nlog1 0\nlog2 0\nrel 2\nrow 0 0\nrow 1 1\nelements 4\nlive base 0\nlive base 1\nlive next 0 1\nlive next 1 0\ncover 0 1\nstep 0 2\nstep 1 3\nstep 2 0\nstep 3 1\nend\n";

/// What `include` leaves for `TWICE` and `LOOP_A`.
pub(crate) const TWICE_IN_LOOP_A: &str =
    "rabit-cert 1 buchi yes\nsizes 1 1 1\nlog1 0\nlog2 0\nrel 1\nrow 0 0\nelements 1\nlive base 0\ncover 0\nstep 0 0\nend\n";

/// What `include` leaves for `OFTEN_A` and `FROM_SOME_TIME_A`, with its options.
pub(crate) const OFTEN_A_IN_FROM_SOME_TIME_A_LIMIT: &str =
    "rabit-cert 1 buchi list\nsizes 2 2 2\nlog1 0\nlog2 0\nlimit 1\nelements 2\nbase 0\nbase 1\nend\n";

/// What `include` leaves for `LOOP_A` and `RING`, with its options.
pub(crate) const LOOP_A_IN_RING_FINITE: &str = "rabit-cert 1 finite no\nsizes 1 3 1\nword 0\nend\n";

/// What `include` leaves for `RING` and `EVEN`, with its options.
pub(crate) const RING_IN_EVEN_FINITE: &str =
    "rabit-cert 1 finite no\nsizes 3 2 1\nword 0 0 0\nend\n";

/// What `include` leaves for `RING` and `LOOP_A`, with its options.
pub(crate) const RING_IN_LOOP_A_FINITE: &str =
    "rabit-cert 1 finite yes\nsizes 3 1 1\nlog1 0\nlog2 0\nrel 1\nrow 0 0\nelements 3\nlive start\nlive next 0 0\nlive next 1 1\ncover 0\nstep 0 1\nstep 1 2\nstep 2 0\nend\n";

/// What `include` leaves for `SPLIT` and `JOINED`, with its options.
pub(crate) const SPLIT_IN_JOINED_LETTERS: &str =
    "rabit-cert 2 buchi yes\nsizes 4 3 4\nlog1 1\nmerge\nclasses 0 1 1 2\nlog2 0\nrel 3\nrow 0 0 0\nrow 1 1 1\nrow 2 2 2\nelements 4\nlive base 0\nlive base 1\nlive base 3\nlive next 0 1\ncover 0 1 1 2\nstep 0 3 3\nstep 1 1\nstep 2 2\nstep 3 3\nend\n";

/// What `include` leaves for `ALL` and `LOOP_A`, with its options.
pub(crate) const ALL_IN_LOOP_A_LETTERS: &str =
    "rabit-cert 2 buchi no\nsizes 1 1 2\nprefix 1\nloop 1\nend\n";

/// The cross relation of `RING` and `LOOP_A`.
pub(crate) const RING_ACROSS_LOOP_A: &str =
    "rabit-cross 1\nsizes 3 1 1\nlook 3\nrel 3\nrow 0 0\nrow 1 0\nrow 2 0\nend\n";

/// The cross relation of `JOINED` and `SPLIT`, with its option.
pub(crate) const JOINED_ACROSS_SPLIT_LOOK: &str =
    "rabit-cross 1\nsizes 3 4 4\nlook 2\nrel 2\nrow 0 0\nrow 2 3\nend\n";

/// What `include` leaves for `LOOP_A` and `ALL`.
pub(crate) const LOOP_A_IN_ALL: &str =
    "rabit-cert 1 buchi yes\nsizes 1 1 2\nlog1 0\nlog2 0\nrel 1\nrow 0 0\nelements 1\nlive base 0\ncover 0\nstep 0 0\nend\n";

/// What `include` leaves for `ALL` and `LOOP_A`.
pub(crate) const ALL_IN_LOOP_A: &str =
    "rabit-cert 1 buchi no\nsizes 1 1 2\nprefix 1\nloop 1\nend\n";

/// What `include` leaves for `NO_GOAL` and `ACCEPTS_NOTHING`.
pub(crate) const NO_GOAL_IN_ACCEPTS_NOTHING: &str =
    "rabit-cert 1 buchi yes\nsizes 2 2 2\nlog1 1\ntrim\nlog2 1\ntrim\nrel 1\nrow 0 0\nelements 0\ncover\nend\n";

/// An automaton that accepts nothing.
pub(crate) const ACCEPTS_NOTHING: &str = "[0]\n[1]\n";

/// What `include` leaves for `A_THEN_B` and `ACCEPTS_NOTHING`.
pub(crate) const A_THEN_B_IN_ACCEPTS_NOTHING: &str =
    "rabit-cert 1 buchi no\nsizes 2 2 2\nprefix 1\nloop 1\nend\n";

/// What `include` leaves for `ACCEPTS_ALL` and `ALL`.
pub(crate) const ACCEPTS_ALL_IN_ALL: &str =
    "rabit-cert 1 buchi yes\nsizes 1 1 2\nlog1 0\nlog2 0\nrel 1\nrow 0 0\nelements 1\nlive base 0\ncover 0 0\nstep 0 0 0\nend\n";

/// What `include` leaves for `RING` and `LOOP_B`.
pub(crate) const RING_IN_LOOP_B: &str =
    "rabit-cert 1 buchi no\nsizes 3 1 2\nprefix 0\nloop 0\nend\n";

/// What `include` leaves for `RING` in itself.
pub(crate) const RING_IN_RING: &str =
    "rabit-cert 1 buchi yes\nsizes 3 3 1\nlog1 1\nmerge\nclasses 0 0 0\nlog2 1\nmerge delayed\nclasses 0 0 0\nrel 3\nrow 0 0 1 1 3 2 2\nrow 1 0 1 1 3 2 2\nrow 2 0 1 1 3 2 2\nrel 1\nrow 0 0\nelements 1\nlive base 0\ncover 0\nstep 0 0\nend\n";

/// A list of questions.
pub(crate) const LIST: &str = "A B C\nA A D\nA X E\n";

/// A list of questions.
pub(crate) const BAD_LIST: &str = "A A C\nA A\n";

/// What is left of `LONG_NO`.
pub(crate) const SHORT_NO: &str = "rabit-cert 1 buchi no\nsizes 3 1 2\nprefix\nloop 0\nend\n";

/// A no of more letters than it needs.
pub(crate) const LONG_NO: &str =
    "rabit-cert 1 buchi no\nsizes 3 1 2\nprefix 0 0 0\nloop 0 0 0\nend\n";

/// A certificate that was changed.
pub(crate) const FALSE_NO: &str = "rabit-cert 1 buchi no\nsizes 3 1 1\nprefix\nloop 0\nend\n";

/// The same in version 2.
pub(crate) const LONG_NO_2: &str =
    "rabit-cert 2 buchi no\nsizes 3 1 2\nprefix 0 0 0\nloop 0 0 0\nend\n";

/// A certificate that was changed.
pub(crate) const CUT_OFF: &str = "rabit-cert 1 buchi no\nsizes 3 1 2\nprefi";

/// A certificate that was changed.
pub(crate) const NO_STEP: &str =
    "rabit-cert 1 buchi yes\nsizes 3 1 1\nlog1 1\nmerge\nclasses 0 0 0\nlog2 0\nrel 1\nrow 0 0\nelements 1\nlive base 0\ncover 0\nend\n";

/// A certificate that was changed.
pub(crate) const NO_COVER: &str =
    "rabit-cert 1 buchi yes\nsizes 3 1 1\nlog1 1\nmerge\nclasses 0 0 0\nlog2 0\nrel 1\nrow 0 0\nelements 1\nlive base 0\ncover 1\nstep 0 0\nend\n";

/// The same in version 2.
pub(crate) const YES_2: &str =
    "rabit-cert 2 buchi yes\nsizes 3 1 1\nlog1 1\nmerge\nclasses 0 0 0\nlog2 0\nrel 1\nrow 0 0 0\nelements 1\nlive base 0\ncover 0\nstep 0 0\nend\n";

/// The cross relation of `RING` and `LOOP_A`, changed.
pub(crate) const LOOK_7: &str =
    "rabit-cross 1\nsizes 3 1 1\nlook 7\nrel 3\nrow 0 0\nrow 1 0\nrow 2 0\nend\n";

/// The cross relation of `RING` and `LOOP_A`, changed.
pub(crate) const TWO_PAIRS: &str =
    "rabit-cross 1\nsizes 3 1 1\nlook 3\nrel 2\nrow 0 0\nrow 1 0\nend\n";

/// No text of the program.
pub(crate) const OLDER: &str = "older";

/// A list of questions.
pub(crate) const MISSING_LIST: &str = "A X D\n";

/// The cross relation of `RING` and `LOOP_A`, changed.
pub(crate) const NO_PAIR: &str = "rabit-cross 1\nsizes 1 1 2\nlook 3\nrel 0\nend\n";

/// A certificate.
pub(crate) const CERT_3: &str = "rabit-cert 3 buchi yes\n";
