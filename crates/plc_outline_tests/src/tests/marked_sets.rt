// Ground sets of files that use marks, as two independent readings of the format give them. Of the file that hands a
// marked node on all of its sets are here. `whole_sets.rt` tells how a set is written; beside that `ms0` is the mark of
// a shared pointer, `ma1` and `mb1` are those of locals, `ml0` is that of a load, and `m0.1@3` is version 1 of the
// marks in a field at term 3.

// One step with each word of marks, and with tests, a load and a store beside them.
const EACH_WORD: &str =
    "struct N { ptr f; } shared S; op o() { ptr p; ptr q; atomic { p := mark S; assume p != q; \
    assume marked p; assume p == q; q := p.f; p.f := q; p := unmark q; assume unmarked p; assume p != null; \
    S := p; } } outline { inv S == null; }";

// The same without the words.
const NO_WORD: &str =
    "struct N { ptr f; } shared S; op o() { ptr p; ptr q; atomic { p := S; assume p != q; \
    assume p == q; q := p.f; p.f := q; p := q; assume p != null; S := p; } } outline { inv S == null; }";

// As above, without a word of marks.
const OF_NO_WORD: &str = "\
null s0 a0 a1 l0 yes none me n0 f0.0@1 f0.1@0 f0.0@0 f0.1@1 f0.1@2 f0.0@2 f0.1@3 f0.0@3 f0.1@4 f0.0@4\n\
N N N N N T P P D N N N N N N N N N N\n\
1=0\n1!3\n1=3\n1!0\n4=9\n1!0\n0!1 10=4\n0=1 10=11\n1!1 12=4\n1=1 12=9\n2!1 13=4\n2=1 13=14\n3!1 15=4\n3=1 15=16\n\
4!1 17=4\n4=1 17=18\n4!0\n4!0\n";

// Another operation says a word of marks.
const ELSEWHERE: &str =
    "struct N { ptr f; } shared S; op o() { ptr p; data x; ptr q; if (p == q) { } \
    atomic { assume x != 3; p ?= q; assume p != null; assume p != S; S := q; } } op m() { ptr r; assume unmarked r; } \
    outline { inv S == null; }";

// `init` alone does.
const AT_FIRST: &str =
    "struct N { ptr f; } shared S; shared U; init { S := new; U := mark S; S := unmark U; } \
    op o() { ptr p; assume p != S; } outline { inv S == U; }";

const CLAIMED: &str =
    "struct N { ptr f; } op o() { ptr p; ptr q; atomic { p := mark q; active p; } }";

// A node is marked and handed on.
const HANDED_ON: &str = "\
    struct N { ptr f; } shared T; \
    op g() { ptr p; p := new; p := mark p; label a; T := p; } \
    outline { inv T == null or marked(T); at a: marked(p); }";

// Files with the number of an obligation and its set.
pub(crate) const MARKED_SETS: &[(&str, u64, &str)] = &[
    (
        EACH_WORD,
        1,
        "\
         null s0 a0 a1 l0 yes no none me n0 ms0 ma0 ma1 ml0 m0.0@0 m0.0@1 m0.0@2 m0.0@3 m0.0@4 f0.0@1 f0.1@0 \
         f0.0@0 f0.1@1 f0.1@2 f0.0@2 f0.1@3 f0.0@3 f0.1@4 f0.0@4 m0.1@0 m0.1@1 m0.1@2 m0.1@3 m0.1@4\n\
         N N N N N T T P P D T T T T T T T T T N N N N N N N N N N T T T T T\n\
         10=5 10=6\n11=5 11=6\n12=5 12=6\n13=5 13=6\n14=5 14=6\n15=5 15=6\n16=5 16=6\n17=5 17=6\n18=5 18=6\n1=0\n\
         1!3 5!12\n5=5\n1=3\n5=12\n1!0\n4=19\n13=15\n1!0\n0!1 20=4\n0=1 20=21\n1!1 22=4\n1=1 22=19\n2!1 23=4\n\
         2=1 23=24\n3!1 25=4\n3=1 25=26\n4!1 27=4\n4=1 27=28\n0!1 29=13\n0=1 29=14\n1!1 30=13\n1=1 30=15\n\
         2!1 31=13\n2=1 31=16\n3!1 32=13\n3=1 32=17\n4!1 33=13\n4=1 33=18\n6=6\n4!0\n4!0\n",
    ),
    (NO_WORD, 1, OF_NO_WORD),
    (
        ELSEWHERE,
        1,
        "\
         null s0 a0 a2 a1 yes no none me n0 n3 ms0 ma0 ma2 m0.0@0 m0.0@1 m0.0@2 m0.0@3\n\
         N N N N D T T P P D D T T T T T T T\n\
         11=5 11=6\n12=5 12=6\n13=5 13=6\n14=5 14=6\n15=5 15=6\n16=5 16=6\n17=5 17=6\n1=0\n2=3\n12=13\n1!0\n",
    ),
    (
        ELSEWHERE,
        2,
        "\
         null s0 a0 a2 a1 yes no none me n0 n3 ms0 ma0 ma2 m0.0@0 m0.0@1 m0.0@2 m0.0@3\n\
         N N N N D T T P P D D T T T T T T T\n\
         11=5 11=6\n12=5 12=6\n13=5 13=6\n14=5 14=6\n15=5 15=6\n16=5 16=6\n17=5 17=6\n1=0\n2!3 12!13\n1!0\n",
    ),
    (
        ELSEWHERE,
        5,
        "\
         null s0 a0 a2 a1 yes no none me n0 n3 ms0 ma0 ma2 m0.0@0 m0.0@1 m0.0@2 m0.0@3\n\
         N N N N D T T P P D D T T T T T T T\n\
         11=5 11=6\n12=5 12=6\n13=5 13=6\n14=5 14=6\n15=5 15=6\n16=5 16=6\n17=5 17=6\n1=0\n4!10\n3!0\n3!1 13!11\n\
         3!0\n",
    ),
    (
        AT_FIRST,
        0,
        "\
         null s0 s1 new yes no none me n0 ms0 ms1 m0.0@0 m0.0@1 m0.0@2 m0.0@3 f0.0@0 f0.0@1 f0.0@2 f0.0@3 \
         retired.0@3\n\
         N N N N T T P P D T T T T T T N N N N T\n\
         9=4 9=5\n10=4 10=5\n11=4 11=5\n12=4 12=5\n13=4 13=5\n14=4 14=5\n1=0\n2=0\n9=5\n10=5\n3!0\n3!1\n3!2\n3!15\n\
         3!16\n3!17\n3!18\n18=0\n19!4\n14=5\n3!3\n",
    ),
    (
        AT_FIRST,
        1,
        "\
         null s0 s1 a0 yes no none me n0 ms0 ms1 ma0 m0.0@0 m0.0@1 m0.0@2 m0.0@3\n\
         N N N N T T P P D T T T T T T T\n\
         9=4 9=5\n10=4 10=5\n11=4 11=5\n12=4 12=5\n13=4 13=5\n14=4 14=5\n15=4 15=5\n1=2\n3!1 11!9\n1!2\n",
    ),
    (
        CLAIMED,
        0,
        "\
         null a0 a1 yes no none me n0 ma0 ma1 m0.0@0 m0.0@1 m0.0@2 retired.0@2\n\
         N N N T T P P D T T T T T T\n\
         8=3 8=4\n9=3 9=4\n10=3 10=4\n11=3 11=4\n12=3 12=4\n2!0\n13=3\n",
    ),
    (
        HANDED_ON,
        0,
        "\
         null s0 yes no none me n0 ms0 m0.0@0 m0.0@1\n\
         N N T T P P D T T T\n\
         7=2 7=3\n8=2 8=3\n9=2 9=3\n1=0\n7=3\n1!0\n7!2\n",
    ),
    (
        HANDED_ON,
        1,
        "\
         null s0 a0 new yes no none me n0 ms0 ma0 m0.0@0 m0.0@1 m0.0@2 m0.0@3 f0.0@0 f0.0@1 f0.0@2 f0.0@3 \
         retired.0@3\n\
         N N N N T T P P D T T T T T T N N N N T\n\
         9=4 9=5\n10=4 10=5\n11=4 11=5\n12=4 12=5\n13=4 13=5\n14=4 14=5\n3!0\n3!1\n3!2\n3!15\n3!16\n3!17\n3!18\n\
         18=0\n19!4\n14=5\n1=0 9=4\n1!0\n9!4\n",
    ),
    (
        HANDED_ON,
        2,
        "\
         null s0 a0 yes no none me n0 ms0 ma0 m0.0@0 m0.0@1 m0.0@2\n\
         N N N T T P P D T T T T T\n\
         8=3 8=4\n9=3 9=4\n10=3 10=4\n11=3 11=4\n12=3 12=4\n1=0 8=3\n1!0\n8!3\n",
    ),
    (
        HANDED_ON,
        3,
        "\
         null s0 a0 yes no none me n0 ms0 ma0 m0.0@0 m0.0@1 m0.0@2\n\
         N N N T T P P D T T T T T\n\
         8=3 8=4\n9=3 9=4\n10=3 10=4\n11=3 11=4\n12=3 12=4\n1=0 8=3\n3!3\n",
    ),
    (
        HANDED_ON,
        4,
        "\
         null s0 a0 yes no none me n0 ms0 ma0 m0.0@0 m0.0@1 m0.0@2\n\
         N N N T T P P D T T T T T\n\
         8=3 8=4\n9=3 9=4\n10=3 10=4\n11=3 11=4\n12=3 12=4\n1=0 8=3\n9=3\n2!0\n9!3\n",
    ),
    (
        HANDED_ON,
        5,
        "\
         null s0 a0 yes no none me n0 ms0 ma0 m0.0@0 m0.0@1 m0.0@2\n\
         N N N T T P P D T T T T T\n\
         8=3 8=4\n9=3 9=4\n10=3 10=4\n11=3 11=4\n12=3 12=4\n1=0 8=3\n1!0\n8!3\n",
    ),
    (
        HANDED_ON,
        6,
        "\
         null s0 a0 b0 new yes no none me you n0 ms0 ma0 mb0 m0.0@0 m0.0@1 m0.0@2 m0.0@3 m0.0@4 f0.0@0 f0.0@1 \
         f0.0@2 f0.0@3 f0.0@4 retired.0@4\n\
         N N N N N T T P P P D T T T T T T T T N N N N N T\n\
         11=5 11=6\n12=5 12=6\n13=5 13=6\n14=5 14=6\n15=5 15=6\n16=5 16=6\n17=5 17=6\n18=5 18=6\n4!0\n4!1\n4!2\n\
         4!3\n4!19\n4!20\n4!21\n4!22\n4!23\n23=0\n24!5\n18=6\n1=0 11=5\n13=5\n13!5\n",
    ),
    (
        HANDED_ON,
        7,
        "\
         null s0 a0 b0 yes no none me you n0 ms0 ma0 mb0 m0.0@0 m0.0@1 m0.0@2 m0.0@3\n\
         N N N N T T P P P D T T T T T T T\n\
         10=4 10=5\n11=4 11=5\n12=4 12=5\n13=4 13=5\n14=4 14=5\n15=4 15=5\n16=4 16=5\n1=0 10=4\n12=4\n12!4\n",
    ),
    (
        HANDED_ON,
        8,
        "\
         null s0 a0 b0 yes no none me you n0 ms0 ma0 mb0 m0.0@0 m0.0@1 m0.0@2 m0.0@3\n\
         N N N N T T P P P D T T T T T T T\n\
         10=4 10=5\n11=4 11=5\n12=4 12=5\n13=4 13=5\n14=4 14=5\n15=4 15=5\n16=4 16=5\n1=0 10=4\n11=4\n12=4\n12!4\n",
    ),
    (
        HANDED_ON,
        9,
        "\
         null s0 a0 b0 yes no none me you n0 ms0 ma0 mb0 m0.0@0 m0.0@1 m0.0@2 m0.0@3\n\
         N N N N T T P P P D T T T T T T T\n\
         10=4 10=5\n11=4 11=5\n12=4 12=5\n13=4 13=5\n14=4 14=5\n15=4 15=5\n16=4 16=5\n1=0 10=4\n12=4\n12!4\n",
    ),
];
