//! The modules of the rows.

/// A machine that sells cakes and apples, and changes quarters.
pub const VENDING: &str =
    "mod VENDING is sorts Coin Item Place . subsorts Coin Item < Place . ops $ q : -> Coin . ops a c : -> Item .
op __ : Place Place -> Place [assoc comm] . rl [buy-c] : $ => c . rl [buy-a] : $ => a q . rl [change] : q q q q => $ . endm ";

/// Trees, of which one operator is frozen, and rules with two labels.
pub const TREES: &str =
    "mod TREES is sort T . ops a b c : -> T . op p : T T -> T . op g : T -> T [frozen] .
rl [x] : a => b . rl [x] : a => c . rl [y] : p(a, a) => a . rl [z] : g(a) => b . endm ";

/// Frogs and toads in a row: f goes to the right, t to the left, by a hop to the free leaf o or by a leap over one of the others.
pub const FROGS: &str =
    "mod FROGS is sort Leaf . ops f t o : -> Leaf . op __ : Leaf Leaf -> Leaf [assoc] . rl [hop] : f o => o f . rl [leap] : f t o => o t f .
rl [hop] : o t => t o . rl [leap] : o f t => t f o . endm ";

/// Rows of letters: two that stand in the wrong order are swapped, and one from the middle is chosen.
pub const LETTERS: &str =
    "mod LETTERS is sorts Elt Lst . subsort Elt < Lst . ops a b c d : -> Elt . op __ : Lst Lst -> Lst [assoc] . op less : Elt Elt -> Bool .
op inner : Lst -> Lst . vars X Y : Elt . vars L M N : Lst . eq less(a, b) = true . eq less(a, c) = true . eq less(b, c) = true .
crl [swap] : X Y => Y X if less(Y, X) = true . crl [choose] : inner(L) => X if M X N := L . endm ";

/// Letters without an order, of which one takes another away.
pub const BAG: &str =
    "mod BAG is sorts Elt Bag . subsort Elt < Bag . ops a b c : -> Elt . op __ : Bag Bag -> Bag [assoc comm] . vars X Y : Elt . rl [take] : X Y => X . endm ";

/// The machine, with names for what is done.
pub const SHOP: &str =
    "smod SHOP is sorts Coin Item Place . subsorts Coin Item < Place . ops $ q : -> Coin . ops a c : -> Item .
op __ : Place Place -> Place [assoc comm] . rl [buy-c] : $ => c . rl [buy-a] : $ => a q . rl [change] : q q q q => $ . var X : Item . vars Y Z : Place .
strats spend apples one loop @ Place . sd spend := all ! . sd apples := try(buy-a or-else change) ; (amatch $ ? apples : idle) .
sd one := buy-c . sd one := buy-a . sd loop := loop . strats get twice : Item @ Place . sd get(X) := all * ; amatch X . sd twice(X) := get(X) ; get(X) .
strat same : Place Place @ Place . sd same(Y, Y) := buy-c . strat part : Place @ Place . csd part(Y) := amatch X ; buy-c if X Z := Y . endsm ";

/// A shepherd, a wolf, a goat and a cabbage on the sides of a river.
pub const RIVER: &str =
    "smod RIVER is sorts Side Crossing . ops left right : -> Side . op over : Side -> Side . op crossing : Side Side Side Side -> Crossing .
vars S W G C : Side . eq over(left) = right . eq over(right) = left . rl [alone] : crossing(S, W, G, C) => crossing(over(S), W, G, C) .
rl [wolf] : crossing(S, S, G, C) => crossing(over(S), over(S), G, C) . rl [goat] : crossing(S, W, S, C) => crossing(over(S), W, over(S), C) .
rl [cabbage] : crossing(S, W, G, S) => crossing(over(S), W, G, over(S)) . strats eaten cross done @ Crossing .
sd eaten := match crossing(S, W, W, C) s.t. S =/= W | match crossing(S, W, G, G) s.t. S =/= G .
sd cross := all ; not(eaten) . sd done := match crossing(right, right, right, right) .
strat there : Side @ Crossing . sd there(S) := match crossing(S, W, G, C) . endsm ";

/// Numbers that go down by one: to 0, in as many calls and one, and by so many, in as many calls and one.
pub const DOWN: &str =
    "smod DOWN is protecting NAT . var N : Nat . rl [dec] : s N => N . strat down @ Nat . sd down := match 0 or-else (dec ; down) .
strat lower : Nat @ Nat . sd lower(0) := idle . sd lower(s N) := dec ; lower(N) . endsm ";

/// A rule whose right side takes six applications of equations.
pub const LONG: &str =
    "mod LONG is sort T . ops a b c d e f g h : -> T . eq b = c . eq c = d . eq d = e . eq e = f . eq f = g . eq g = h . rl [r] : a => b . endm ";
