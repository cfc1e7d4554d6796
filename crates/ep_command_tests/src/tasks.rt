// The tasks of the worked rows.

pub const COIN0: &str = "task coin;
objects { ann, bob : agent; }
fluents { heads; }
init {
  world u { heads }
  world v { }
  designated { u }
  links all all;
}
goal knows ann heads;
";

pub const COIN: &str = "task coin;
objects { ann, bob : agent; }
fluents { heads; }
init {
  world u { heads }
  world v { }
  designated { u }
  links all all;
}
action peek(a : agent) { sense heads by { a }; }
action twice { event e pre true { } event f pre true { } designated { e, f } links all all; }
goal (knows ann heads and not knows bob heads);
";

pub const LONE: &str = "task lone;
objects { ann, bob : agent; }
fluents { heads; }
init {
  world u { heads }
  world v { }
  designated { u }
  links all same;
}
goal knows ann heads;
";

pub const LOOK: &str = "task look;
objects { ann, bob : agent; }
fluents { heads; }
init {
  world u { heads }
  world v { }
  designated { u }
  links all all;
}
action look { sense heads by { ann }; }
goal knows bob heads;
";

pub const MSG: &str = "task msg;
objects { ann, bob : agent; }
fluents { heads; }
init {
  world u { heads }
  world v { }
  designated { u }
  links all all;
}
action both { private heads to { ann, bob }; }
action only { private heads to { ann }; }
goal common all heads;
";

pub const TWO: &str = "task two;
objects { ann, bob : agent; }
fluents { heads; }
init {
  world u { heads }
  world v { }
  designated { u, v }
  links all all;
}
action say { announce heads; }
goal heads;
";

pub const FAR: &str = "task far;
objects { ann : agent; }
fluents { }
init { world o { } designated { o } links all same; }
action three {
  event a pre true { } event b pre true { } event c pre true { }
  designated { a } links all { a -> b, b -> c };
}
action four {
  event a pre true { } event b pre true { } event c pre true { } event d pre true { }
  designated { a } links all { a -> b, b -> c, c -> d };
}
goal true;
";

pub const WAIT: &str = "task wait_task;
objects { ann : agent; }
fluents { done; }
init { world o { } designated { o } links all same; }
action wait { event e pre true { } event f pre true { } designated { e, f } links all same; }
action blur { event e pre true { } event f pre true { } designated { e, f } links all all; }
action finish { assign when true { done := true; } }
goal done;
";

pub const SWAP: &str = "task swap_task;
objects { ann : agent; }
fluents { p; q; }
init { world o { p } designated { o } }
action swap { assign when true { p := q; q := p; } }
goal (q and not p);
";

pub const WAYS: &str = "task ways;
objects { ann : agent; }
fluents { start; a1; a2; b1; x; d; g; }
init { world o { start } designated { o } }
action s1 { assign when start { start := false; a1 := true; } }
action s2 { assign when a1 { a1 := false; a2 := true; } }
action s3 { assign when a2 { a2 := false; x := true; } }
action t1 { assign when start { start := false; b1 := true; } }
action t2 { assign when b1 { b1 := false; x := true; } }
action go1 { assign when x { x := false; d := true; } }
action go2 { assign when d { d := false; g := true; } }
goal g;
";

pub const KINDS: &str = "task kinds;
types { child < agent; }
objects { ann : agent; kid : child; }
fluents { wet(child); }
init { world o { wet(kid) } designated { o } }
action look(a : agent) { sense wet(kid) by { a }; }
action dry(c : child) { assign when wet(c) { wet(c) := false; } }
goal not wet(kid);
";

pub const LETTER: &str = "task letter;
objects { ann, bob, cat : agent; }
fluents { pass; }
init {
  vary { pass }
  law true;
  sees { ann } { pass }
  designated pass;
}
action whisper(a : agent, b : agent) distinct { private knows a pass to { a, b }; }
goal (knows bob pass and not knows cat pass and knows ann knows bob pass);
";

pub const PAIR: &str = "task pair;
objects { ann, bob : agent; }
fluents { has(agent); }
init { world o { has(ann) } designated { o } }
action swap(a : agent, b : agent) distinct { assign when true { has(a) := has(b); has(b) := has(a); } }
goal has(bob);
";

pub const TOLL: &str = "task toll;
objects { ann : agent; }
fluents { mid; done; }
init { world o { } designated { o } }
action fly cost 10 { assign when true { done := true; } }
action walk cost 3 { assign when not mid { mid := true; } }
action ride cost 4 { assign when mid { done := true; } }
goal done;
";

// `open` makes a real world of each of the two.
pub const SIDES: &str = "task sides;
objects { ann : agent; }
fluents { heads; }
init {
  world u { heads }
  world v { }
  designated { u }
  links all all;
}
action open {
  event stay pre true { } event turn pre true { heads := not heads; }
  designated { stay, turn } links all same;
}
goal knows ann heads;
";

pub const WIDE: &str = "task wide;
objects { ann : agent; }
fluents { p0; p1; p2; p3; p4; p5; p6; p7; }
init { vary { p0, p1, p2, p3, p4, p5, p6, p7 } law true; designated true; }
action split {
  event e pre true { } event f pre true { }
  designated { e, f } links all { e -> e };
}
goal true;
";
