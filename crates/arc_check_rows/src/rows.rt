//! Texts, and what is to be said of each.

use arc_model::Illegal;

/// A heading of eight lines: the event behind it stands on line 9.
pub const SMALL: &[u8] =
    b"history 1\nslots 2\nentries 1\ncaps 1 2 3\nclass A f:strong:A\nglobal g weak A\nthreads 1\nevents\n";

/// Lines behind the small heading, each with the least number of a fault that it has.
pub static FAULTS: &[(&[u8], u32)] = &[
    (b"5 1 f\x7full", 1),
    (b"ifnil a", 2),
    (b"5 1 foo", 2),
    (b"5 1 foo 1 1", 2),
    (b"5", 3),
    (b"5 1", 3),
    (b"5 1 full 1", 3),
    (b"5 1 take @g 1", 3),
    (b"5 1 look 0", 3),
    (b"5 1 swap 0 nil nil", 3),
    (b"5 1 copy 0.0.0 1", 3),
    (b"done x", 3),
    (b"05 1 full", 4),
    (b"5x 1 full", 4),
    (b"18446744073709551616 1 full", 4),
    (b"5 2 full", 4),
    (b"5 1 copy 4294967296 1", 4),
    (b"5 1 take @g.1 1", 4),
    (b"5 1 copy 0. 1", 4),
    (b"5 1 copy .0 1", 4),
    (b"5 1 copy 0.8 1", 4),
    (b"5 1 copy 2.0 1", 4),
    (b"5 1 claim 1", 4),
    (b"5 1 load 1 more", 4),
    (b"5 1 drop 1 dead", 4),
    (b"5 1 new x 9 0", 4),
    (b"5 1 new 1 9 0", 5),
    (b"5 1 look @", 5),
    (b"5 1 new 1 B 0", 7),
    (b"5 1 countfull x @h", 7),
    (b"5 1 countfull x 1", 8),
    (b"5 1 side 0 0 stron", 8),
];

/// Texts of which a line, of this number, is none that may stand there.
pub static TEXTS: &[(&[u8], u32)] = &[
    (b"", 1),
    (b"history 3\n", 1),
    (b"history 02\n", 1),
    (b"history 1 2\n", 1),
    (b"history 2\n", 2),
    (
        b"history 1\nslots 1\nentries 1\ncaps 1 2 3\nimmortal A\nthreads 0\nevents\ndone\n",
        5,
    ),
    (
        b"history 2\nslots 1\nentries 1\ncaps 1 2 3\nimmortal A\nglobal g strong A\nimmortal B\nthreads 0\nevents\ndone\n",
        7,
    ),
    (
        b"history 2\nslots 1\nentries 1\ncaps 1 2 3\nthreads 0\nifnil a\nevents\ndone\n",
        6,
    ),
    (b"history 1", 2),
    (b"report 1\n\xff\n history\t1 \n", 2),
    (b"history 1\nslots 1\nentries 1\nthreads 1\n", 4),
    (b"history 1\nslots 1\nentries 1\ncaps 1 2 3\nevents\n", 5),
    (
        b"history 1\nslots 1\nentries 1\ncaps 1 2 3\nthreads 0\nevents\n",
        7,
    ),
    (
        b"history 1\nslots 1\nentries 1\ncaps 1 2 3\nthreads 0\nevents\ndone\ndone",
        8,
    ),
];

/// Texts of the second version of which a line, of this number, declares a weak reference to an immortal class.
pub static WEAK_IMMORTAL: &[(&[u8], u32)] = &[
    (
        b"history 2\nslots 1\nentries 1\ncaps 1 2 3\nimmortal A\nclass B f:weak:A\nthreads 0\nevents\ndone\n",
        6,
    ),
    (
        b"history 2\nslots 1\nentries 1\ncaps 1 2 3\nclass B f:weak:A\nimmortal A\nthreads 0\nevents\ndone\n",
        5,
    ),
    (
        b"history 2\nslots 1\nentries 1\ncaps 1 2 3\nimmortal A\nglobal g weak A\nthreads 0\nevents\ndone\n",
        6,
    ),
];

/// Behind another text: the ninth line has an event, of a reference that the thread has not.
pub const BEHIND_A_TEXT: &[u8] =
    b"end\nhistory 1\nslots 1\n\n#\nentries 1\ncaps 1 2 3\nthreads 1\nevents\n7 0 copy 0 1\ndone\n";

/// Two slots, two entries, a list of two at most, a class with a strong and a weak field, one without, and two globals.
pub const HEADING: &[u8] =
    b"history 1\nslots 2\nentries 2\ncaps 0 1 2\nclass A f:strong:A g:weak:A\nclass B\nglobal s strong A\nglobal w weak A\nthreads 2\nevents\n";

/// One slot, one entry, a list of one at most, and an immortal class.
pub const IMMORTAL: &[u8] =
    b"history 2\nslots 1\nentries 1\ncaps 0 1 1\nimmortal A\nthreads 1\nevents\n";

/// Events behind that heading, of which the last isn't legal, for this reason: one for each need of each event.
pub static NEEDS: &[(&[u8], Illegal)] = &[
    // an object is made, no slot is free, references are copied, a list is full
    (b"1 1 new 2 A 0\n", Illegal::Taken),
    (b"1 1 new 1 A 0\n2 1 new 2 A 0\n", Illegal::Taken),
    (b"1 1 full\n", Illegal::NotTaken),
    (b"1 1 copy 1 1\n", Illegal::NotHeld),
    (b"1 1 new 1 A 0\n2 1 copy 1 3\n", Illegal::Taken),
    (
        b"1 1 new 1 A 0\n2 1 copy 1 2\n3 1 copy 1 3\n",
        Illegal::WrongAnswer,
    ),
    (b"1 1 copy 0.0 1\n", Illegal::NoSuchObject),
    (b"1 1 new 1 B 0\n2 1 copy 0.0 2\n", Illegal::NoSuchObject),
    (b"1 1 new 1 A 0\n2 2 copy 0.0 1\n", Illegal::NotHeld),
    (b"1 1 new 1 A 0\n2 1 copy 0.0 2\n", Illegal::NotHeld),
    (b"1 1 copy @s 1\n", Illegal::NotHeld),
    (
        b"1 1 new 1 A 0\n2 1 copy 1 2\n3 1 swap 0.0 2 nil\n4 1 copy 0.0 4\n",
        Illegal::Taken,
    ),
    (
        b"1 1 new 1 A 0\n2 1 copy 1 2\n3 1 swap 0.0 2 nil\n4 1 copy 0.0 3\n",
        Illegal::WrongAnswer,
    ),
    (b"1 1 countfull strong 1\n", Illegal::NotHeld),
    (
        b"1 1 new 1 A 0\n2 1 countfull strong 1\n",
        Illegal::WrongAnswer,
    ),
    (b"1 1 countfull weak 0.0\n", Illegal::NoSuchObject),
    (
        b"1 1 new 1 B 0\n2 1 countfull weak 0.0\n",
        Illegal::NoSuchObject,
    ),
    (b"1 1 new 1 A 0\n2 2 countfull weak 0.0\n", Illegal::NotHeld),
    (b"1 1 new 1 A 0\n2 1 countfull weak 0.0\n", Illegal::NotHeld),
    (
        b"1 1 new 1 A 0\n2 1 swap @s 1 nil\n3 1 countfull unowned @s\n",
        Illegal::WrongAnswer,
    ),
    // references are formed and loaded
    (b"1 1 unown 1 1\n", Illegal::NotHeld),
    (
        b"1 1 new 1 A 0\n2 1 unown 1 2\n3 1 unown 2 3\n",
        Illegal::NotHeld,
    ),
    (b"1 1 new 1 A 0\n2 1 unown 1 3\n", Illegal::Taken),
    (
        b"1 1 new 1 A 0\n2 1 unown 1 2\n3 1 unown 1 3\n",
        Illegal::WrongAnswer,
    ),
    (b"1 1 weak 1 1\n", Illegal::NotHeld),
    (b"1 1 new 1 A 0\n2 1 weak 1 2\n", Illegal::NoSuchObject),
    (
        b"1 1 new 1 A 0\n2 1 claim 0\n3 1 side 0 0 weak\n4 1 weak 1 3\n",
        Illegal::Taken,
    ),
    (
        b"1 1 new 1 A 0\n2 1 claim 0\n3 1 side 0 0 weak\n4 1 weak 1 2\n5 1 weak 1 3\n",
        Illegal::WrongAnswer,
    ),
    (b"1 1 new 1 A 0\n2 1 load 1 2\n", Illegal::NotHeld),
    (
        b"1 1 new 1 A 0\n2 1 unown 1 2\n3 1 load 2 4\n",
        Illegal::Taken,
    ),
    (
        b"1 1 new 1 A 0\n2 1 unown 1 2\n3 1 drop 1 last\n4 1 load 2 3\n",
        Illegal::WrongAnswer,
    ),
    (
        b"1 1 new 1 A 0\n2 1 unown 1 2\n3 1 copy 1 3\n4 1 load 2 4\n",
        Illegal::WrongAnswer,
    ),
    (b"1 1 new 1 A 0\n2 1 load 1 dead\n", Illegal::NotHeld),
    (
        b"1 1 new 1 A 0\n2 1 unown 1 2\n3 1 load 2 dead\n",
        Illegal::WrongAnswer,
    ),
    (b"1 1 new 1 A 0\n2 1 load 1 nil\n", Illegal::NotHeld),
    (
        b"1 1 new 1 A 0\n2 1 claim 0\n3 1 side 0 0 weak\n4 1 weak 1 2\n5 1 load 2 nil\n",
        Illegal::WrongAnswer,
    ),
    // references go, entries are claimed, published and given back
    (b"1 1 drop 1 more\n", Illegal::NotHeld),
    (b"1 1 new 1 A 0\n2 2 drop 1 last\n", Illegal::NotHeld),
    (b"1 1 new 1 A 0\n2 1 drop 1 more\n", Illegal::WrongAnswer),
    (
        b"1 1 new 1 A 0\n2 1 copy 1 2\n3 1 drop 1 last\n",
        Illegal::WrongAnswer,
    ),
    (b"1 1 claim 0\n2 1 claim 0\n", Illegal::Taken),
    (b"1 1 noentry\n", Illegal::NotTaken),
    (b"1 1 claim 0\n2 1 side 0 0 weak\n", Illegal::NoSuchObject),
    (b"1 1 new 1 A 0\n2 1 side 0 0 weak\n", Illegal::Duty),
    (
        b"1 1 new 1 A 0\n2 2 claim 0\n3 1 side 0 0 weak\n",
        Illegal::Duty,
    ),
    (
        b"1 1 new 1 A 0\n2 1 claim 0\n3 1 side 0 0 weak\n4 1 claim 1\n5 1 side 0 1 weak\n",
        Illegal::Taken,
    ),
    (
        b"1 1 new 1 A 0\n2 1 copy 1 2\n3 1 claim 0\n4 1 side 0 0 strong\n",
        Illegal::WrongAnswer,
    ),
    (
        b"1 1 new 1 A 0\n2 1 unown 1 2\n3 1 claim 0\n4 1 side 0 0 unowned\n",
        Illegal::WrongAnswer,
    ),
    (
        b"1 1 new 1 A 0\n2 1 unown 1 2\n3 1 drop 1 last\n4 1 claim 0\n5 1 side 0 0 weak\n",
        Illegal::WrongAnswer,
    ),
    (b"1 1 back 0\n", Illegal::Duty),
    (b"1 1 claim 0\n2 2 back 0\n", Illegal::Duty),
    // cells are swapped and looked into
    (b"1 1 swap 0.0 nil nil\n", Illegal::NoSuchObject),
    (
        b"1 1 new 1 B 0\n2 1 swap 0.0 nil nil\n",
        Illegal::NoSuchObject,
    ),
    (b"1 1 new 1 A 0\n2 2 swap 0.0 nil nil\n", Illegal::NotHeld),
    (b"1 1 swap @s 1 nil\n", Illegal::NotHeld),
    (
        b"1 1 new 1 A 0\n2 1 unown 1 2\n3 1 swap @s 2 nil\n",
        Illegal::NotHeld,
    ),
    (b"1 1 new 1 A 0\n2 1 swap @s 1 9\n", Illegal::Taken),
    (b"1 1 new 1 A 0\n2 1 swap @s 1 2\n", Illegal::WrongAnswer),
    (
        b"1 1 new 1 A 0\n2 1 swap @s 1 nil\n3 1 swap @s nil nil\n",
        Illegal::WrongAnswer,
    ),
    (b"1 1 look 0.0\n", Illegal::NoSuchObject),
    (b"1 1 new 1 B 0\n2 1 look 0.0\n", Illegal::NoSuchObject),
    (b"1 1 new 1 A 0\n2 2 look 0.0\n", Illegal::NotHeld),
    (
        b"1 1 new 1 A 0\n2 1 swap @s 1 nil\n3 1 look @s\n",
        Illegal::WrongAnswer,
    ),
    // deinits, slots and entries end
    (b"1 1 take 0.0 1\n", Illegal::NoSuchObject),
    (b"1 1 new 1 B 0\n2 1 take 0.0 2\n", Illegal::NoSuchObject),
    (b"1 1 new 1 A 0\n2 1 take 0.0 2\n", Illegal::Duty),
    (
        b"1 1 new 1 A 0\n2 1 drop 1 last\n3 2 take 0.0 1\n",
        Illegal::Duty,
    ),
    (
        b"1 1 new 1 A 0\n2 1 new 2 B 1\n3 1 swap 0.0 2 nil\n4 1 drop 1 last\n5 1 take 0.1 3\n",
        Illegal::Duty,
    ),
    (
        b"1 1 new 1 A 0\n2 1 drop 1 last\n3 1 take 0.0 2\n",
        Illegal::NotHeld,
    ),
    (
        b"1 1 new 1 A 0\n2 1 new 2 B 1\n3 1 swap 0.0 2 nil\n4 1 drop 1 last\n5 1 take 0.0 9\n",
        Illegal::Taken,
    ),
    (b"1 1 finish 0 last\n", Illegal::NoSuchObject),
    (b"1 1 new 1 A 0\n2 1 finish 0 last\n", Illegal::Duty),
    (
        b"1 1 new 1 A 0\n2 1 new 2 B 1\n3 1 swap 0.0 2 nil\n4 1 drop 1 last\n5 1 finish 0 last\n",
        Illegal::Duty,
    ),
    (
        b"1 1 new 1 A 0\n2 1 drop 1 last\n3 1 finish 0 more\n",
        Illegal::WrongAnswer,
    ),
    (b"1 1 vacate 0\n", Illegal::NoSuchObject),
    (b"1 1 new 1 A 0\n2 1 vacate 0\n", Illegal::Duty),
    (b"1 1 gone 0 last\n", Illegal::NoSuchObject),
    (
        b"1 1 new 1 A 0\n2 1 claim 0\n3 1 side 0 0 weak\n4 1 gone 0 last\n",
        Illegal::Duty,
    ),
    (
        b"1 1 new 1 A 0\n2 1 claim 0\n3 1 side 0 0 weak\n4 1 weak 1 2\n5 1 drop 1 last\n6 1 finish 0 last\n7 1 vacate 0\n8 1 gone 0 last\n",
        Illegal::WrongAnswer,
    ),
];

/// Headings and events behind them, all legal, and how many there are.
pub static HISTORIES: &[(&[u8], &[u8], u32)] = &[
    // a class is immortal, behind a report
    (
        b"1 new Root#1.1\n2 new Node#1.2\n3 ok\n4 full\n6 ok\nend\nimmortal Root#1.1\nleak Node#1.2 live 0000000000000002\nobjects 2 deinits 0 leaks 1\nhistory 2\nslots 2\nentries 1\ncaps 1073741823 2147483647 4294967295\nimmortal Root kid:strong:Node\nclass Node\nthreads 1\nevents\n",
        b"2 1 new 1 Root 0\n6 1 new 2 Node 1\n10 1 swap 0.0 2 nil\n11 1 full\n12 1 drop 1 more\n",
        5,
    ),
    // no count of an immortal object is too great, and it lives on
    (
        IMMORTAL,
        b"1 1 new 1 A 0\n2 1 copy 1 2\n3 1 unown 1 3\n4 1 drop 1 more\n5 1 drop 2 more\n6 1 load 3 4\n7 1 drop 4 more\n8 1 drop 3 more\n9 1 full\n",
        9,
    ),
    // the second version, with a class that isn't immortal alone
    (
        b"history 2\nslots 1\nentries 1\ncaps 0 1 1\nclass A\nthreads 1\nevents\n",
        b"1 1 new 1 A 0\n2 1 drop 1 last\n3 1 finish 0 last\n4 1 vacate 0\n",
        4,
    ),
    // a strong count moves to an entry at its cap
    (
        b"history 1\nslots 1\nentries 1\ncaps 1 10 10\nclass Node\nthreads 1\nevents\n",
        b"1 1 new 1 Node 0\n4 1 copy 1 2\n6 1 claim 0\n11 1 side 0 0 strong\n14 1 copy 1 3\n17 1 drop 1 more\n19 1 drop 2 more\n21 1 drop 3 last\n26 1 finish 0 last\n27 1 vacate 0\n29 1 gone 0 last\n30 1 back 0\n",
        12,
    ),
    // an unowned count does so after deinit
    (
        b"history 1\nslots 1\nentries 1\ncaps 10 2 11\nclass Node\nthreads 1\nevents\n",
        b"1 1 new 1 Node 0\n4 1 unown 1 2\n6 1 drop 1 last\n11 1 finish 0 more\n13 1 copy 2 3\n15 1 claim 0\n20 1 side 0 0 unowned\n23 1 copy 2 4\n26 1 drop 2 more\n29 1 drop 3 more\n32 1 drop 4 last\n33 1 vacate 0\n35 1 gone 0 last\n36 1 back 0\n",
        14,
    ),
    // a weak load after the last release
    (
        b"history 1\nslots 1\nentries 1\ncaps 1073741823 2147483647 4294967295\nclass Node\nthreads 1\nevents\n",
        b"1 1 new 1 Node 0\n2 1 claim 0\n3 1 side 0 0 weak\n4 1 weak 1 2\n5 1 drop 1 last\n6 1 finish 0 last\n7 1 vacate 0\n8 1 gone 0 more\n9 1 load 2 nil\n10 1 drop 2 last\n11 1 back 0\n",
        11,
    ),
    // an unowned load after deinit, and no free slot
    (
        b"history 1\nslots 1\nentries 1\ncaps 1073741823 2147483647 4294967295\nclass Node\nthreads 1\nevents\n",
        b"1 1 new 1 Node 0\n2 1 unown 1 2\n3 1 drop 1 last\n4 1 finish 0 more\n5 1 load 2 dead\n6 1 full\n7 1 drop 2 last\n8 1 vacate 0\n",
        8,
    ),
    // a weak load between load and exchange
    (
        b"history 1\nslots 1\nentries 1\ncaps 1073741823 2147483647 4294967295\nclass Node\nglobal g weak Node\nthreads 2\nevents\n",
        b"1 1 new 1 Node 0\n4 1 claim 0\n9 1 side 0 0 weak\n12 1 weak 1 2\n14 1 swap @g 2 nil\n18 2 copy @g 1\n23 2 load 1 2\n27 1 drop 1 more\n31 2 drop 1 more\n34 2 drop 2 last\n40 2 finish 0 last\n41 2 vacate 0\n43 2 gone 0 more\n45 0 swap @g nil 1\n47 0 drop 1 last\n48 0 back 0\n",
        16,
    ),
    // a migration that is lost
    (
        b"history 1\nslots 1\nentries 2\ncaps 1073741823 2147483647 4294967295\nclass Node\nglobal g strong Node\nthreads 2\nevents\n",
        b"1 1 new 1 Node 0\n4 1 copy 1 2\n6 1 swap @g 2 nil\n9 2 copy @g 1\n14 1 claim 0\n16 2 claim 1\n25 2 side 0 1 weak\n29 1 weak 1 3\n30 1 back 0\n33 1 drop 1 more\n35 1 drop 3 more\n38 2 weak 1 2\n41 2 drop 1 more\n43 2 drop 2 more\n45 0 swap @g nil 1\n48 0 drop 1 last\n53 0 finish 0 last\n54 0 vacate 0\n56 0 gone 1 last\n58 0 back 1\n",
        20,
    ),
    // an access that the schedule stops in
    (
        b"history 1\nslots 1\nentries 1\ncaps 1073741823 2147483647 4294967295\nclass Node\nglobal g strong Node\nthreads 2\nevents\n",
        b"1 1 new 1 Node 0\n4 1 swap @g 1 nil\n8 2 copy @g 1\n11 1 swap @g nil 2\n13 1 drop 2 more\n15 2 drop 1 last\n20 2 finish 0 last\n21 2 vacate 0\n23 0 swap @g nil nil\n",
        9,
    ),
    // a freed object that stays
    (
        b"history 1\nslots 2\nentries 1\ncaps 1073741823 2147483647 4294967295\nclass Node next:strong:Node back:weak:Node\nthreads 1\nevents\n",
        b"1 1 new 1 Node 0\n2 1 copy 1 2\n3 1 swap 0.0 2 nil\n4 1 new 3 Node 1\n5 1 claim 0\n6 1 side 1 0 weak\n7 1 weak 3 4\n8 1 swap 0.1 4 nil\n9 1 drop 1 more\n10 1 drop 3 last\n11 1 finish 1 last\n12 1 vacate 1\n13 1 gone 0 more\n",
        13,
    ),
];

/// Headings and events behind them, the line of the first that isn't legal, and why.
pub static FIRST_ILLEGAL: &[(&[u8], &[u8], u32, Illegal)] = &[
    // the last release of an immortal object
    (
        IMMORTAL,
        b"1 1 new 1 A 0\n2 1 drop 1 last\n",
        9,
        Illegal::WrongAnswer,
    ),
    // an immortal object whose count is too great
    (
        IMMORTAL,
        b"1 1 new 1 A 0\n2 1 countfull strong 1\n",
        9,
        Illegal::WrongAnswer,
    ),
    // an immortal object that gains an entry
    (
        IMMORTAL,
        b"1 1 new 1 A 0\n2 1 claim 0\n3 1 side 0 0 strong\n",
        10,
        Illegal::NoSuchObject,
    ),
    // a weak reference to an immortal object
    (
        IMMORTAL,
        b"1 1 new 1 A 0\n2 1 weak 1 2\n",
        9,
        Illegal::NoSuchObject,
    ),
    // an immortal object that isn't live
    (
        IMMORTAL,
        b"1 1 new 1 A 0\n2 1 unown 1 2\n3 1 drop 1 more\n4 1 load 2 dead\n",
        11,
        Illegal::WrongAnswer,
    ),
    // a weak load that gives a reference after the last release
    (
        b"history 1\nslots 1\nentries 1\ncaps 1073741823 2147483647 4294967295\nclass Node\nthreads 1\nevents\n",
        b"1 1 new 1 Node 0\n2 1 claim 0\n3 1 side 0 0 weak\n4 1 weak 1 2\n5 1 drop 1 last\n6 1 finish 0 last\n7 1 vacate 0\n8 1 gone 0 more\n9 1 load 2 3\n10 1 drop 2 last\n11 1 back 0\n",
        16,
        Illegal::WrongAnswer,
    ),
    // a deinit that ends before the last release
    (
        b"history 1\nslots 1\nentries 1\ncaps 1073741823 2147483647 4294967295\nclass Node\nglobal g weak Node\nthreads 2\nevents\n",
        b"1 1 new 1 Node 0\n4 1 claim 0\n9 1 side 0 0 weak\n12 1 weak 1 2\n14 1 swap @g 2 nil\n18 2 copy @g 1\n23 2 load 1 2\n27 1 drop 1 more\n31 2 drop 1 more\n40 2 finish 0 last\n34 2 drop 2 last\n41 2 vacate 0\n43 2 gone 0 more\n45 0 swap @g nil 1\n47 0 drop 1 last\n48 0 back 0\n",
        18,
        Illegal::Duty,
    ),
];

/// A weak load between the load and the exchange of another thread.
pub const WEAK_LOAD: &[u8] =
    b"history 1\nslots 1\nentries 1\ncaps 1073741823 2147483647 4294967295\nclass Node\nglobal g weak Node\nthreads 2\nevents\n1 1 new 1 Node 0\n4 1 claim 0\n9 1 side 0 0 weak\n12 1 weak 1 2\n14 1 swap @g 2 nil\n18 2 copy @g 1\n23 2 load 1 2\n27 1 drop 1 more\n31 2 drop 1 more\n34 2 drop 2 last\n40 2 finish 0 last\n41 2 vacate 0\n43 2 gone 0 more\n45 0 swap @g nil 1\n47 0 drop 1 last\n48 0 back 0\ndone\n";
