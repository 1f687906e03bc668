//! The schedule that a number and a count stand for.
ghost use Rattle.std.specs.Prelude.{◌≡◌, ◌≤◌, ◌<◌, ◌^◌, ◌-◌, ◌*◌, ◌/◌, ◌++◌, IfOk, OnOk};
ghost use Rattle.std.specs.Prelude.{codes, decimal, string_bytes};
ghost use Rattle.room_script.specs.Generator.{drawn, pick, pushed_by, whose, moves_shape, pushes_layer, place_picked};
ghost use Rattle.room_script.specs.Generator.{moves_layer, sets_corner, moves, speaks, turn, after_turn, turns};
ghost use Rattle.room_script.specs.Generator.{line, edit, spot_from, opening, ending, sent, stopped, schedule_of};

use room_json::{Bytes, NoMemory};
use std::alloc::Global;
use std::fmt::Write;

/// The state after a draw.
fn drawn(s: u64) -> u64
    ensures { result ≡ drawn s }
{
    s.wrapping_mul(6364136223846793005)
        .wrapping_add(1442695040888963407)
}

/// The number below k that the next draw gives.
fn pick(k: u64, s: u64) -> u64
    requires { 0 < k }
    ensures value { result ≡ pick k s }
    ensures bound { result < k }
{
    drawn(s) / (1 << 33) % k
}

/// The client whose turn i is.
fn whose(i: u64) -> u64
    requires { 0 < i }
    ensures { result ≡ whose i }
{
    (i - 1) % 3 + 1
}

fn moves_shape(out: &mut String, i: u64, s: u64) -> Result<u64, NoMemory>
    requires { 0 < i }
    ensures lines { OnOk result (string_bytes out.new ≡ string_bytes out.old ++ (moves_shape i s).lines) }
    ensures state { IfOk result (λ next. next ≡ (moves_shape i s).state) }
{
    let next = drawn(s);
    let last = drawn(next);
    writeln!(
        out,
        "edit {} update 1:{} {{\"x\":{},\"y\":{}}}",
        whose(i),
        2 + pick(3, s),
        pick(1000, next),
        pick(1000, last)
    )?;
    Ok(drawn(last))
}

fn pushes_layer(out: &mut String, i: u64, s: u64) -> Result<u64, NoMemory>
    requires { 0 < i }
    ensures lines { OnOk result (string_bytes out.new ≡ string_bytes out.old ++ (pushes_layer i s).lines) }
    ensures state { IfOk result (λ next. next ≡ (pushes_layer i s).state) }
{
    writeln!(out, "edit {} push 1:5 \"layer {}\"", whose(i), i)?;
    Ok(s)
}

/// With m items, at least two, one of them is moved.
fn moves_layer(out: &mut String, m: u64, i: u64, s: u64) -> Result<u64, NoMemory>
    requires turn { 0 < i }
    requires least { 2 ≤ m }
    requires most { m < 2 ^ 63 }
    ensures lines { OnOk result (string_bytes out.new ≡ string_bytes out.old ++ (moves_layer m i s).lines) }
    ensures state { IfOk result (λ next. next ≡ (moves_layer m i s).state) }
{
    let next = drawn(s);
    let from = pick(m, s);
    let to = (from + 1 + pick(m - 1, next)) % m;
    writeln!(out, "edit {} move 1:5 {} {}", whose(i), from, to)?;
    Ok(drawn(next))
}

fn sets_corner(out: &mut String, i: u64, s: u64) -> Result<u64, NoMemory>
    requires { 0 < i }
    ensures lines { OnOk result (string_bytes out.new ≡ string_bytes out.old ++ (sets_corner i s).lines) }
    ensures state { IfOk result (λ next. next ≡ (sets_corner i s).state) }
{
    writeln!(
        out,
        "edit {} update 1:2 {{\"x\":{}}}",
        whose(i),
        pick(1000, s)
    )?;
    Ok(drawn(s))
}

/// How many items were pushed in the rounds before turn i.
fn pushed_before(i: u64) -> u64
    requires { 0 < i }
    ensures value { result ≡ pushed_by (3 * ((i - 1) / 3)) }
    ensures bound { result < 2 ^ 63 }
{
    ((i - 1) / 3 * 3 + 2) / 4
}

fn moves(out: &mut String, i: u64, s: u64) -> Result<u64, NoMemory>
    requires { 0 < i }
    ensures lines { OnOk result (string_bytes out.new ≡ string_bytes out.old ++ (moves i s).lines) }
    ensures state { IfOk result (λ next. next ≡ (moves i s).state) }
{
    let m = pushed_before(i);
    if m >= 2 {
        moves_layer(out, m, i, s)
    } else {
        sets_corner(out, i, s)
    }
}

fn put_presence(out: &mut String, i: u64, s: u64) -> Result<(), NoMemory>
    requires { 0 < i }
    ensures { OnOk result
        (string_bytes out.new
        ≡ string_bytes out.old ++ line (codes "presence " ++ decimal (whose i) ++ codes " " ++ spot_from s)) }
{
    let (x, y) = (pick(1000, s), pick(1000, drawn(s)));
    writeln!(out, "presence {} {{\"x\":{},\"y\":{}}}", whose(i), x, y)?;
    Ok(())
}

fn sets_last(out: &mut String, i: u64) -> Result<(), NoMemory>
    requires { 0 < i }
    ensures { OnOk result
        (string_bytes out.new ≡ string_bytes out.old ++ edit i (codes "set root last " ++ decimal i)) }
{
    writeln!(out, "edit {} set root last {}", whose(i), i)?;
    Ok(())
}

fn speaks(out: &mut String, i: u64, s: u64) -> Result<u64, NoMemory>
    requires { 0 < i }
    ensures lines { OnOk result (string_bytes out.new ≡ string_bytes out.old ++ (speaks i s).lines) }
    ensures state { IfOk result (λ next. next ≡ (speaks i s).state) }
{
    put_presence(out, i, s)?;
    sets_last(out, i)?;
    Ok(drawn(drawn(s)))
}

/// Turn i, and the state after its draws.
fn put_turn(out: &mut String, i: u64, s: u64) -> Result<u64, NoMemory>
    requires { 0 < i }
    ensures lines { OnOk result (string_bytes out.new ≡ string_bytes out.old ++ (turn i s).lines) }
    ensures state { IfOk result (λ next. next ≡ (turn i s).state) }
{
    if i % 4 == 1 {
        moves_shape(out, i, s)
    } else if i % 4 == 2 {
        pushes_layer(out, i, s)
    } else if i % 4 == 3 {
        moves(out, i, s)
    } else {
        speaks(out, i, s)
    }
}

fn put_sent(out: &mut String) -> Result<(), NoMemory>
    ensures { OnOk result (string_bytes out.new ≡ string_bytes out.old ++ sent) }
{
    out.push_str("flush 1\nflush 2\nflush 3\ndrain 1000\n")?;
    Ok(())
}

fn put_stopped(out: &mut String) -> Result<(), NoMemory>
    ensures { OnOk result (string_bytes out.new ≡ string_bytes out.old ++ stopped) }
{
    out.push_str("stop\nstart\ndial 1\ndial 2\ndial 3\ndrain 1000\n")?;
    Ok(())
}

/// What follows turn i.
fn put_after_turn(out: &mut String, count: u64, i: u64) -> Result<(), NoMemory>
    ensures { OnOk result (string_bytes out.new ≡ string_bytes out.old ++ after_turn count i) }
{
    if i % 3 == 0 || i == count {
        put_sent(out)?;
    }
    if i == count / 6 * 3 {
        put_stopped(out)?;
    }
    Ok(())
}

fn put_turns(out: &mut String, number: u64, count: u64) -> Result<(), NoMemory>
    ensures { OnOk result (string_bytes out.new ≡ string_bytes out.old ++ turns count count 1 number) }
{
    let mut s = number;
    for done in 0..count {
        s = put_turn(out, done + 1, s)?;
        put_after_turn(out, count, done + 1)?;
    }
    Ok(())
}

/// Three clients, then a map of three objects, and a list.
const OPENING: &str = r#"dial 1
drain 1000
dial 2
drain 1000
dial 3
drain 1000
edit 1 set root shapes {"$map":{"a":{"$object":{"x":0,"y":0}},"#;

const OPENING_TO_END: &str = r#""b":{"$object":{"x":0,"y":0}},"c":{"$object":{"x":0,"y":0}}}}
edit 1 set root layers {"$list":[]}
flush 1
drain 1000
"#;

fn put_opening(out: &mut String) -> Result<(), NoMemory>
    ensures { OnOk result (string_bytes out.new ≡ string_bytes out.old ++ opening) }
{
    out.push_str(OPENING)?;
    out.push_str(OPENING_TO_END)?;
    Ok(())
}

fn put_ending(out: &mut String) -> Result<(), NoMemory>
    ensures { OnOk result (string_bytes out.new ≡ string_bytes out.old ++ ending) }
{
    out.push_str(
        "begin 1\nedit 1 update 1:2 {\"x\":1}\nedit 1 update 1:2 {\"x\":2}\nend 1\nundo 1\n",
    )?;
    out.push_str("flush 1\ndrain 1000\nbrief 1\nbrief 2\nbrief 3\nbrief server\n")?;
    Ok(())
}

/// The schedule of a number and a count, a large one where the count is large.
pub fn schedule_of(alloc: Global, number: u64, count: u64) -> Result<Bytes, NoMemory>
    ensures { IfOk result (λ b. b ≡ schedule_of number count) }
{
    let mut out = String::new(alloc);
    put_opening(&mut out)?;
    put_turns(&mut out, number, count)?;
    put_ending(&mut out)?;
    Ok(Bytes::from_vec(out.into_bytes()))
}
