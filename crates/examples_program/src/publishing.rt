//! Constants of shareable values, which are published, and shareable copies, as a table of scripts.

use crate::endings::{check_done, check_within};
use crate::table::check_rows;
use rr_base::Limits;
use std::test::Fail;

const PUBLISHING: &str =
    "a constant of a frozen array|A = [1, 2].freeze; p A, A[0], A.size, A.frozen?, A.equal?(A)^n|[1, 2]^n1^n2^ntrue^ntrue^n|
a text|A = \"abc\".freeze; p A.size, A + \"d\", A[0], A == \"abc\", \"#{A}!\"; puts A^n|3^n\"abcd\"^n\"a\"^ntrue^n\"abc!\"^nabc^n|
the value is the same object|s = \"q\".freeze; A = s; p A.equal?(s), A.frozen?^n|true^ntrue^n|
a value that is not shareable stays open|a = [1]; A = a; a << 2; p A, A.equal?(a)^n|[1, 2]^ntrue^n|
an immediate, a symbol, a class|A = 1; B = nil; C = :a; D = String; p A, B, C, D^n|1^nnil^n:a^nString^n|
the later value counts|A = [1].freeze; B = A; A = [2].freeze; p A, B^n|[2]^n[1]^n|
a part of another constant's value|a = Ractor.make_shareable([\"x\", [\"y\"]]); A = a; B = A[1]; C = a[0]; p B.equal?(A[1]), B.equal?(a[1]), C.equal?(A[0]), B, C^n|true^ntrue^ntrue^n[\"y\"]^n\"x\"^n|
a part that is published already|a = \"x\".freeze; A = a; b = [a, [a].freeze].freeze; B = b; p B[0].equal?(A), B[1][0].equal?(a), B^n|true^ntrue^n[\"x\", [\"x\"]]^n|
a shareable part of an open value|a = [[1].freeze, [2]]; A = a; A[1] << 3; p A, a[0].frozen?^n|[[1], [2, 3]]^ntrue^n|
made shareable afterwards|a = [\"x\"]; A = a; Ractor.make_shareable(a); B = a; p A.equal?(B), Ractor.shareable?(A), B^n|true^ntrue^n[\"x\"]^n|
a cycle|a = []; a << a; Ractor.make_shareable(a); A = a; p A[0].equal?(A), A[0][0].equal?(a), A^n|true^ntrue^n[[...]]^n|
the elements in turn|A = Ractor.make_shareable([\"x\", [\"y\"]]); A.each { ^px^p p x }; A.each_with_index { ^px, i^p p x, i }; p A.map { ^px^p x.size }, A.select { ^px^p x.size == 1 }^n|\"x\"^n[\"y\"]^n\"x\"^n0^n[\"y\"]^n1^n[1, 1]^n[\"x\", [\"y\"]]^n|
each array of an array is spread over parameters|A = Ractor.make_shareable([[1, \"a\"], [2, \"b\"]]); A.each { ^pn, s^p p n, s }; p A.map { ^pn, s^p s }^n|1^n\"a\"^n2^n\"b\"^n[\"a\", \"b\"]^n|
several targets and splats|A = Ractor.make_shareable([\"x\", \"y\"]); a, b = A; p a, b, [*A, \"z\"]; def f(a, b); a + b; end; p f(*A), a.equal?(A[0])^n|\"x\"^n\"y\"^n[\"x\", \"y\", \"z\"]^n\"xy\"^ntrue^n|
a block of the program|A = Ractor.make_shareable([\"x\", \"y\"]); def f; yield A; end; f { ^pa, b^p p a, b }; f { ^pa^p p a.equal?(A) }^n|\"x\"^n\"y\"^ntrue^n|
what prints|A = Ractor.make_shareable([\"x\", [\"y\", nil]]); puts A; print A, \"a\"; puts; p A.join(\"-\"), A.inspect, A.to_s^n|x^ny^n^n[\"x\", [\"y\", nil]]a^n\"x-y-\"^n\"[\\\"x\\\", [\\\"y\\\", nil]]\"^n\"[\\\"x\\\", [\\\"y\\\", nil]]\"^n|
a program's to_s inside|class P; def to_s; \"P!\"; end; end; A = Ractor.make_shareable([P.new, [P.new]]); puts A; p A.join(\",\"); puts \"#{A[0]}\"^n|P!^nP!^n\"P!,P!\"^nP!^n|
a hash by its keys|H = Ractor.make_shareable({\"k\" => [1], :a => \"x\", 1 => 2}); p H[\"k\"], H[\"\" + \"k\"], H[:a], H[1], H[2], H.size, H.key?(\"k\"), H.keys, H.values^n|[1]^n[1]^n\"x\"^n2^nnil^n3^ntrue^n[\"k\", :a, 1]^n[[1], \"x\", 2]^n|
the pairs of a hash in turn|H = Ractor.make_shareable({\"k\" => [1], :a => \"x\"}); H.each { ^pk, v^p p k, v }; H.each { ^ppair^p p pair }^n|\"k\"^n[1]^n:a^n\"x\"^n[\"k\", [1]]^n[:a, \"x\"]^n|
a hash that is published in a turn over it|h = {1 => 2, 3 => 4}; h.each { ^pk, v^p A = h.freeze if k == 1; p k, v }; p A.equal?(h)^n|1^n2^n3^n4^ntrue^n|
instance variables|class P; attr_reader :x; def initialize(x); @x = x; end; def y; @x; end; end; A = Ractor.make_shareable(P.new([\"s\"])); p A.x, A.y, A.x.equal?(A.y), A.x[0].frozen?^n|[\"s\"]^n[\"s\"]^ntrue^ntrue^n|
a method that writes raises|class P; attr_accessor :x; end; A = Ractor.make_shareable(P.new); begin; A.x = 1; rescue FrozenError; puts \"frozen\"; end; p A.x^n|frozen^nnil^n|
writing raises|A = Ractor.make_shareable([1]); begin; A << 2; rescue FrozenError; puts \"frozen\"; end; begin; A[0] = 2; rescue FrozenError; puts \"frozen\"; end; p A^n|frozen^nfrozen^n[1]^n|
a copy may be written|A = Ractor.make_shareable([\"x\"]); b = A.dup; b << \"y\"; p b, A, b[0].equal?(A[0]), b.frozen?^n|[\"x\", \"y\"]^n[\"x\"]^ntrue^nfalse^n|
methods that make arrays|A = Ractor.make_shareable([\"b\", \"a\"]); p A + [\"z\"], A.sort, A.first, A.last, A.include?(\"a\"), A == [\"b\", \"a\"], A.equal?([\"b\", \"a\"])^n|[\"b\", \"a\", \"z\"]^n[\"a\", \"b\"]^n\"b\"^n\"a\"^ntrue^ntrue^nfalse^n|
in an array of the script|A = Ractor.make_shareable([\"x\"]); b = [A, A[0]]; b << A; p b, b[0].equal?(A), b.include?([\"x\"]); x, y = b; p x, y^n|[[\"x\"], \"x\", [\"x\"]]^ntrue^ntrue^n[\"x\"]^n\"x\"^n|
in a hash of the script|A = \"k\".freeze; h = {A => 1}; h[A] = 2; B = [A].freeze; p h[A], h[\"k\"], h[B[0]], h.keys[0].equal?(A)^n|2^n2^n2^ntrue^n|
in instance and global variables|A = Ractor.make_shareable([\"x\"]); @a = A[0]; $g = A; class P; def initialize(x); @x = x; end; def x; @x; end; end; p @a, $g, P.new(A[0]).x, $g.equal?(A)^n|\"x\"^n[\"x\"]^n\"x\"^ntrue^n|
an exception|A = Ractor.make_shareable(RuntimeError.new(\"m\")); begin; raise A; rescue => e; p e.message, e.equal?(A), e.frozen?; end^n|\"m\"^ntrue^ntrue^n|
a text as a message|A = \"m\".freeze; begin; raise A; rescue => e; p e.message; end; begin; raise ArgumentError, A; rescue => e; p e.message; end^n|\"m\"^n\"m\"^n|
only where it is unset|A ^p^p= Ractor.make_shareable([\"x\"]); A ^p^p= 2; p A^n|[\"x\"]^n|
a constant of constants|A = [1].freeze; B = [A, A].freeze; C = [B].freeze; p C, C[0][1].equal?(A), C[0][0].equal?(B[1])^n|[[[1], [1]]]^ntrue^ntrue^n|
a copy|a = [\"x\"]; b = Ractor.make_shareable(a, copy: true); p a.frozen?, b.frozen?, b[0].frozen?, a[0].frozen?, b, a.equal?(b)^n|false^ntrue^ntrue^nfalse^n[\"x\"]^nfalse^n|
no copy|a = [1]; b = Ractor.make_shareable(a, copy: false); p a.equal?(b), a.frozen?^n|true^ntrue^n|
a shareable value is its own copy|a = [1].freeze; p Ractor.make_shareable(a, copy: true).equal?(a), Ractor.make_shareable(1, copy: true)^n|true^n1^n|
a copy keeps what is led to twice|s = \"x\"; a = [s, s]; a << a; b = Ractor.make_shareable(a, copy: true); p b[0].equal?(b[1]), b[2].equal?(b), b[0].equal?(s), a.frozen?, s.frozen?^n|true^ntrue^nfalse^nfalse^nfalse^n|
a copy refers to shareable parts|t = \"t\".freeze; a = [t, \"x\"]; b = Ractor.make_shareable(a, copy: true); p b[0].equal?(t), b[1].equal?(a[1]), b; a << 1; p a, Ractor.shareable?(b)^n|true^nfalse^n[\"t\", \"x\"]^n[\"t\", \"x\", 1]^ntrue^n|
a copy of objects, hashes and exceptions|class P; attr_accessor :x; end; o = P.new; o.x = [{\"k\" => \"v\"}]; b = Ractor.make_shareable(o, copy: true); p b.x[0][\"k\"], b.x.frozen?, o.frozen?, o.x.frozen?; e = RuntimeError.new(\"m\"); f = Ractor.make_shareable(e, copy: true); p f.message, f.frozen?, e.frozen?^n|\"v\"^ntrue^nfalse^nfalse^n\"m\"^ntrue^nfalse^n|
a copy of a constant's value|a = [\"x\"]; A = Ractor.make_shareable(a, copy: true); a << \"y\"; p A, a, A[0].frozen?; B = A; p B.equal?(A)^n|[\"x\"]^n[\"x\", \"y\"]^ntrue^ntrue^n|
a copy twice|a = [\"x\"]; b = Ractor.make_shareable(a, copy: true); c = Ractor.make_shareable(b, copy: true); p b.equal?(c)^n|true^n|";

#[test]
fn publishing_prints_what_is_wanted(rt: HostRuntime) -> Result<(), Fail> {
    check_rows(&rt, rt.alloc(), PUBLISHING)
}

// A constant takes one event, and one more where its value is published first.
#[test]
fn a_full_history_is_told(rt: HostRuntime) {
    let script =
        b"begin; A = [1].freeze; B = 1; rescue Ractor::Error => e; puts e.message; end; puts 2\n";
    for events in 0..4 {
        let limits = Limits {
            events,
            ..Limits::DEFAULT
        };
        let wanted = if events < 3 {
            "history full\n2\n"
        } else {
            "2\n"
        };
        check_within(&rt, rt.alloc(), limits, script, wanted, "done");
    }
}

#[test]
fn many_objects_inside_one_another_are_published(rt: HostRuntime) {
    let script = b"a = []; i = 1; while i < 100000; a = [a]; i = i + 1; end
Ractor.make_shareable(a); A = a; p A.size, A[0][0].frozen?\n";
    check_done(&rt, rt.alloc(), script, "1\ntrue\n");
}
