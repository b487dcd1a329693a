// The answers that are wanted, as texts of sections: a section's head stands after `#` and has a row's commands and
// status, its lines are the answer. The printed stack is a file as well as an answer, and stands by itself.

pub(crate) const CHECKED: &str = "# check publish: 0
safe points 5 steps 4 locations 2 obligations 0
# check least: 0
safe points 0 steps 0 locations 2 obligations 0
# check lost: 1
untyped step 3 prim 0 line 8 deref m
# check empty: 2
refused syntax token 0 line 1
# check stray: 2
refused byte at 13
# check brace: 2
refused syntax token 4 line 1
# check unknown: 2
refused undeclared token 14 line 1
# check loop: 0
safe points 5 steps 4 locations 2 obligations 0
# check claim, certify claim, locate claim empty: 1
unproved claim step 0 prim 0 line 1
term 0 null class 0
term 1 a:n class 1
term 2 yes class 2
term 3 none class 3
term 4 me class 4
term 5 0 class 5
term 6 retired.0(a:n) class 2
# check entered, certify entered, locate entered empty: 1
unproved enter f clause 0
term 0 null class 0
term 1 s:T class 1
term 2 yes class 2
term 3 none class 3
term 4 me class 4
term 5 0 class 5
# check outline: 0
safe points 0 steps 0 locations 2 obligations 0
# check outlined, check hazards: 0
at d W {u.idle u.held r.idle r.held r.kept}
at d t S {u.held r.kept}
at d s - {u.idle u.held r.idle r.held r.kept}
at e W {u.idle u.held r.idle r.held r.kept}
at e t S {u.held r.kept}
at e s - {u.idle u.held r.idle r.held r.kept}
at f W {u.idle u.held r.idle r.held r.kept}
at f t S {u.held r.kept}
at f s - {u.idle u.held r.idle r.held r.kept}
safe points 37 steps 39 locations 7 obligations 2845
# check epochs-held: 0
at d W {u.in r.in r.kept}
at d t S {u.in r.kept}
at d s - {u.in r.in r.kept}
at e W {u.in r.in r.kept}
at e t S {u.in r.kept}
at e s - {u.in r.in r.kept}
at f W {u.in r.in r.kept}
at f t S {u.in r.kept}
at f s - {u.in r.in r.kept}
safe points 35 steps 36 locations 7 obligations 2559
# check unclaimed: 1
untyped step 24 prim 0 line 28 deref t
# check retired-again: 1
untyped step 29 prim 0 line 35 retire t
# check unchecked: 1
untyped step 23 prim 0 line 27 deref t
# check unknown-local: 2
refused undeclared token 12 line 1
# check pointless: 2
refused sort token 12 line 1
# check left-early: 1
untyped step 24 prim 0 line 28 deref t
# check watched-retire: 2
refused sort token 7 line 1
# check twice-watched: 2
refused syntax token 16 line 1
# check byte: 2
refused byte at 0
# check number: 2
refused number at 0
# check name: 2
refused name at 0
# check sorts: 2
refused sort token 22 line 1
# check epochs: 1
untyped step 3 prim 0 line 6 deref t
# check calls: 2
refused call token 9 line 2
# check twice-declared: 2
refused duplicate token 4 line 1
# check compared: 1
untyped step 1 prim 0 line 2 compare p
# check open-atomic: 2
refused syntax token 18 line 1
# check stack: 1
untyped step 5 prim 0 line 6 retire t
# check unknown-claim: 2
refused undeclared token 13 line 1
# check unknown-outline: 2
refused undeclared token 7 line 1
# check open-outline: 2
refused syntax token 6 line 2
# check dead: 1
untyped step 2 prim 0 line 3 deref a
# check endless: 1
untyped step 4 prim 0 line 3 deref a
# check rounds: 1
untyped step 1 prim 0 line 3 deref c
# check labelled: 0
at l W {u r}
at l a - {u r}
at l b - {u r}
at l c - {u r}
safe points 7 steps 6 locations 2 obligations 0
# check protected: 0
at a W {u.idle u.held r.idle r.held r.kept}
at a n ALS {u.held}
safe points 5 steps 4 locations 7 obligations 0
# check taken: 1
untyped step 5 prim 0 line 4 retire t
# check twice: 1
untyped step 3 prim 0 line 2 retire t
# check once: 0
safe points 5 steps 4 locations 2 obligations 0
# check marked-put: 1
untyped step 8 prim 0 line 3 compare m
# check marked: 0
safe points 4 steps 3 locations 2 obligations 0
# check marked-init: 0
safe points 6 steps 5 locations 2 obligations 0
# check marked-null: 0
safe points 7 steps 6 locations 2 obligations 0
# check marked-link: 1
untyped step 2 prim 0 line 2 deref p
# check marked-else: 0
safe points 13 steps 14 locations 2 obligations 0
# check marked-outline: 0
at a W {u r}
at a p - {u r}
at a m - {u r}
safe points 5 steps 4 locations 2 obligations 10
# check marked-different: 1
unproved own step 1 line 2 clause 0
term 0 null class 0
term 1 a:p class 1
term 2 a:q class 1
term 3 yes class 3
term 4 no class 4
term 5 none class 5
term 6 me class 6
term 7 0 class 7
term 8 mark(a:p) class 3
term 9 mark(a:q) class 4
# check marked-shared: 0
at a W {u r}
at a p - {u r}
safe points 5 steps 4 locations 2 obligations 10
# check marked-brace, print marked-brace, replay marked-brace one leak: 2
refused syntax token 18 line 1
# check marked-byte: 2
refused byte at 13
# check marked-name: 2
refused syntax token 0 line 1
# check marked-field: 2
refused syntax token 4 line 1
# check marked-operation: 2
refused syntax token 5 line 1
# check marked-sort: 2
refused sort token 19 line 1
# check absent: 4
read failed
";

pub(crate) const PRINTED: &str = "# print least: 0
struct N {
}
# print two-words: 0
struct N {
ptr f ;
}
# print claim: 0
struct N {
}
op f ( ) {
ptr n ;
active n ;
}
# print outline: 0
struct N {
}
# print protected: 0
struct Node {
ptr next ;
}
shared Top ;
call protect ( ptr ) ;
use hazard ( protect ) ;
op f ( ) {
ptr n ;
n := new ;
protect ( n ) ;
label a ;
}
# print brace: 2
refused syntax token 4 line 1
# print stray: 2
refused byte at 13
# print unknown-outline: 2
refused undeclared token 7 line 1
# print open-outline: 2
refused syntax token 6 line 2
# print absent: 4
read failed
";

pub(crate) const REPLAYED: &str = "# replay stack reused list: 0
end lines 23 events 5 freed 1
# replay stack reused leak: 1
impossible line 18
# replay stack reuses list: 0
end lines 99997 events 23076 freed 7692
# replay stack stale list: 1
race deref line 20 prim 0
# replay stack kept list: 1
forbidden free 1 line 15
# replay stack kept leak: 0
end lines 15 events 3 freed 0
# replay stack kept hazard: 0
end lines 15 events 3 freed 0
# replay twice double leak: 1
race double line 6 prim 0
# replay twice freed list: 1
race pass line 7 prim 0
# replay twice freed leak: 1
race double line 7 prim 0
# replay twice addressless leak: 1
impossible line 3
# replay twice no-operation leak: 1
impossible line 2
# replay blocked one leak: 1
impossible line 1
# replay stack one leak: 0
end lines 1 events 0 freed 0
# replay marked-put marked-putting leak: 0
end lines 11 events 0 freed 0
# replay marked-put marked-otherwise leak: 1
impossible line 6
# replay marked-init marked-start leak: 0
end lines 8 events 0 freed 0
# replay marked-null marked-steps leak: 0
end lines 9 events 0 freed 0
# replay marked-link marked-loads leak: 0
end lines 10 events 0 freed 0
# replay marked-else marked-sides leak: 0
end lines 11 events 0 freed 0
# replay marked-else marked-side leak: 1
impossible line 8
# replay stack no-threads leak: 2
refused schedule line 1
# replay brace no-threads leak: 2
refused syntax token 4 line 1
# replay claim one leak: 0
end lines 1 events 0 freed 0
# replay outline one leak: 0
end lines 1 events 0 freed 0
# replay outline no-threads leak: 2
refused schedule line 1
# replay unknown-outline one leak: 2
refused undeclared token 7 line 1
# replay stack absent leak: 4
read failed
# replay absent one leak: 4
read failed
";

// Words of no listed form, and those that name no reclaimer.
pub(crate) const UNLISTED: &str = "# check: 3
words refused
# check publish lost: 3
words refused
# --help: 3
words refused
# --help publish: 3
words refused
# Check publish: 3
words refused
# replay publish publish: 3
words refused
# replay publish publish nobody: 3
words refused
# print publish list: 3
words refused
# certify: 3
words refused
# certify publish lost: 3
words refused
# Certify publish: 3
words refused
# verify publish: 3
words refused
# verify publish lost stray: 3
words refused
# suggest, suggest publish lost, Suggest publish: 3
words refused
# locate, locate publish, locate publish lost stray, Locate publish lost: 3
words refused
# sample 0 0: 3
words refused
# sample 17 0: 3
words refused
# sample 04 0: 3
words refused
# sample 1 58: 3
words refused
# sample 16 718: 3
words refused
# sample 1: 3
words refused
# sample 1 : 3
words refused
";

// `certify` where there is no certificate, `verify` before one is judged, and samples.
pub(crate) const CERTIFIED: &str = "# certify lost: 1
untyped step 3 prim 0 line 8 deref m
# certify unclaimed: 1
untyped step 24 prim 0 line 28 deref t
# certify stray: 2
refused byte at 13
# certify empty: 2
refused syntax token 0 line 1
# certify absent: 4
read failed
# certify marked-put: 1
untyped step 8 prim 0 line 3 compare m
# verify marked empty, verify publish marked: 2
refused certificate json
# verify publish empty: 2
refused certificate json
# verify lost empty: 2
refused certificate json
# verify stray empty: 2
refused byte at 13
# verify stray absent: 4
read failed
# verify absent empty: 4
read failed
# sample 1 0: 0
sample 1 0 points 37 steps 39 obligations 2845 safe
# sample 1 1: 2
refused syntax token 0 line 1
# sample 1 27: 1
untyped step 23 prim 0 line 27 deref t
# sample 2 62: 1
untyped step 62 prim 0 line 62 deref t
";

// Claims that files need, and files that no claims make typable. Whether claims are true isn't asked: `claim` and
// `weaker` need no more.
pub(crate) const SUGGESTED: &str = "# suggest stack: 0
active t step 5 line 6
active t step 12 line 7
active t step 15 line 8
suggested 3
# suggest unclaimed: 0
active t step 24 line 28
suggested 1
# suggest epochs: 0
active t step 3 line 6
suggested 1
# suggest lost: 0
active m step 3 line 8
suggested 1
# suggest dead: 0
active a step 2 line 3
suggested 1
# suggest endless: 0
active a step 4 line 3
suggested 1
# suggest rounds: 0
active c step 1 line 3
suggested 1
# suggest retired-again: 0
active t step 29 line 35
suggested 1
# suggest left-early: 0
active t step 24 line 28
active t step 26 line 32
active t step 31 line 37
suggested 3
# suggest twice: 0
active t step 3 line 2
suggested 1
# suggest compared: 0
active T step 1 line 2
active p step 1 line 2
suggested 2
# suggest marked-put: 0
active n step 8 line 3
active m step 8 line 3
active n step 10 line 3
active m step 10 line 3
suggested 4
# suggest marked-link: 0
active p step 2 line 2
active p step 3 line 2
suggested 2
# suggest hazards, suggest epochs-held, suggest weaker, suggest claim, suggest publish, suggest least: 0
suggested 0
# suggest read-twice: 1
insufficient step 0 prim 2 line 1 deref q
# suggest compared-read: 1
insufficient step 0 prim 2 line 1 compare q
# suggest stray, locate stray empty: 2
refused byte at 13
# suggest empty, locate empty empty: 2
refused syntax token 0 line 1
# suggest brace, locate brace stray: 2
refused syntax token 4 line 1
# suggest unknown-outline, locate unknown-outline publish: 2
refused undeclared token 7 line 1
# suggest absent, locate stray absent, locate absent empty: 4
read failed
";

// The file of the stack with an outline, in the spelling that is printed.
pub(crate) const OUTLINED: &str = "\
struct Node {
ptr next ;
data val ;
}
shared Top ;
call protect ( ptr ) ;
use hazard ( protect ) ;
ghost st {
made , linked , cut }
;
ghost owner thread ;
op push ( v ) {
ptr n ;
ptr t ;
atomic {
n := new ;
ghost n . owner := me ;
}
n . val := v ;
loop {
t := Top ;
n . next := t ;
choose {
atomic {
n . next ?= Top ;
ghost n . st := linked ;
ghost n . owner := none ;
Top := n ;
n := null ;
}
return ;
}
or {
}
}
}
op pop ( ) {
ptr t ;
ptr s ;
loop {
t := Top ;
if ( t == null ) {
return ;
}
protect ( t ) ;
choose {
atomic {
t ?= Top ;
active t ;
}
s := t . next ;
label d ;
choose {
label e ;
atomic {
active Top ;
assume Top == t ;
ghost t . st := cut ;
ghost t . owner := me ;
Top := s ;
}
label f ;
retire ( active t ) ;
return ;
}
or {
atomic {
active Top ;
assume Top != t ;
}
}
}
or {
}
}
}
outline {\ninv Top == null or Top . st == linked ;
inv all x : x . st != linked or not retired ( x ) ;
inv all x , y : x . st != linked or x . next != y or y . st == linked ;
inv all x : Top == null or x . st != linked or x . next != Top ;
inv all x , y : x . st != linked or y . st != linked or x . next == null or x . next != y . next or x == y ;
over push : n == null or n . st == made ;\nover push : n == null or n . owner == me ;
over push : n == null or not retired ( n ) ;\nover pop : t == null or t . st != made ;
at d , e : t != null ;\nat d , e : t . next == s ;
at f : t . st == cut ;\nat f : t . owner == me ;\nat f : not retired ( t ) ;\n}
";
