// Whole files, each with its canonical text or its first fault.
use crate::tests::tables::{Answers, assert_rows};
use crate::tests::texts::{canonical, push_came};
use std::alloc::{AllocError, Global};

struct PrintedFile;

impl Answers for PrintedFile {
    fn push(&self, alloc: Global, answer: &mut String, text: &str) -> Result<(), AllocError> {
        push_came(answer, canonical(alloc, text), 0)
    }
}

const FILES: &str = "# struct N{ptr f;}
struct N {
ptr f ;
}
# struct N{ptr f;}call protect(ptr);use hazard(protect);init{}op a(){}
struct N {
ptr f ;
}
call protect ( ptr ) ;
use hazard ( protect ) ;
op a ( ) {
}
# struct N{data d;}call enter();call leave();use epoch(enter,leave);op a(v){}op b(v){ptr p;}
struct N {
data d ;
}
call enter ( ) ;
call leave ( ) ;
use epoch ( enter , leave ) ;
op a ( v ) {
}
op b ( v ) {
ptr p ;
}
# struct N{ptr f;}shared A;shared B;ghost st{made};init{A:=new;ghost A.st:=made;A.f:=null;B:=A;}
struct N {
ptr f ;
}
shared A ;
shared B ;
ghost st {
made }
;
init {
A := new ;
ghost A . st := made ;
A . f := null ;
B := A ;
}
# struct N{}outline{depth 0;}
struct N {
}
# struct N{ptr f;}outline{depth 0;inv null!=null;}
struct N {
ptr f ;
}
outline {
inv null != null ;
}
# struct N{ptr f;data d;}shared A;ghost st{made,cut};ghost own thread;op o(v){ptr p;label a;label b;}op e(){ptr s;\
    label c;}outline{depth 1;over o:p==null or p.d!=v or p.d==7;inv all x:not retired(x)or x.st==cut;at a,b:p.own==me \
    or p.own!=none;inv all x,y:x.f!=y or retired(y)or y==A;at c:s.st!=made;}
struct N {
ptr f ;
data d ;
}
shared A ;
ghost st {
made , cut }
;
ghost own thread ;
op o ( v ) {
ptr p ;
label a ;
label b ;
}
op e ( ) {
ptr s ;
label c ;
}
outline {
depth 1 ;
inv all x : not retired ( x ) or x . st == cut ;
inv all x , y : x . f != y or retired ( y ) or y == A ;
over o : p == null or p . d != v or p . d == 7 ;
at a , b : p . own == me or p . own != none ;
at c : s . st != made ;
}
# struct N{ptr f;}shared A;op o(){ptr p;label a;}outline{inv marked(A)or not marked(A.f);inv all x:not marked(x.f);\
    at a:not marked(p)or marked(p.f);}
struct N {
ptr f ;
}
shared A ;
op o ( ) {
ptr p ;
label a ;
}
outline {
inv marked ( A ) or not marked ( A . f ) ;
inv all x : not marked ( x . f ) ;
at a : not marked ( p ) or marked ( p . f ) ;
}
# struct retire { }
duplicate 1
# struct N { ptr N; }
duplicate 4
# struct N { ptr a; data a; }
duplicate 7
# struct N { ptr a; } shared a;
duplicate 8
# struct N { ptr a; } op f(a) { }
duplicate 10
# struct N { } op f(f) { }
duplicate 7
# struct N { } op f(v) { ptr v; }
duplicate 11
# struct N { } op f(v, v) { }
duplicate 9
# struct N { } op f(g) { } op g() { }
duplicate 12
# struct N { } op f(v) { } op g() { v := 1; }
undeclared 16
# struct N { } call enter(); op f(f) { }
duplicate 12
# struct N { } ghost g { a, a };
duplicate 9
# struct N { } shared T; ghost g thread; init { ghost T.g := me; }
sort 18
# struct N { } use hazard(f);
undeclared 7
# struct N { } call a(ptr); use epoch(a, a);
sort 13
# struct N { } call a ( ) ; use hazard ( a ) ;
sort 12
# struct N { } use hazard ( retire ) ;
sort 7
# struct N { } call a ( ptr ) ; use hazard ( a ) ; use hazard ( a ) ;
syntax 16
# struct N { } op f ( ) { ptr n ; m := n ; }
undeclared 12
# struct N { } op f ( ) { ptr n ; atomic { n := new ;
syntax 18
# struct N { } op f ( ) { choose { } }
syntax 12
# struct N { } init { N := spot ; } 7
syntax 11
# struct N { } }
syntax 4
# 
syntax 0
# struct N { } op f() { } ;
syntax 10
# struct N { } op f() { } outline { inv T == null; }
undeclared 13
# struct N { } op f() { x := 1; } outline { inv T == null; }
undeclared 9
# struct N { } outline { inv T == null; } op f() { }
syntax 12
# struct N { } outline { } outline { }
syntax 7
";

#[test]
fn files_are_printed_or_refused(rt: HostRuntime) -> Result<(), AllocError> {
    assert_rows(&rt, rt.alloc(), &PrintedFile, FILES, "# ", "\n")
}
