ghost use Rattle.std.specs.Prelude.{◌*◌, ◌<◌};

use vt_dec::{Context, Decision, Dim, Side, Space};

/// A decision that takes `Right` at the last dimension alone.
fn last_right<const N: usize>(last: Dim) -> Decision<N>
    requires { last < 64 * N }
{
    let mut decision = Decision::all_left();
    decision.set(last, Side::Right);
    decision
}

fn counts_one<const N: usize>(decision: &Decision<N>, last: Dim) -> bool
    requires { last < 64 * N }
{
    decision.side(last) == Side::Right
        && decision.in_space(Space::AtMost(1))
        && !decision.in_space(Space::AtMost(0))
}

fn narrows_at<const N: usize>(whole: &Context<N>, last: Dim, decision: &Decision<N>) -> bool
    requires { last < 64 * N }
{
    let (Some(left), Some(right)) = (whole.with(last, Side::Left), whole.with(last, Side::Right))
    else {
        return false;
    };
    right.admits(decision)
        && !left.admits(decision)
        && !left.meets(&right)
        && right.meets(whole)
        && left.side(last) == Some(Side::Left)
        && right.least().side(last) == Side::Right
        && right.next_decided(Dim(0)) == Some((last, Side::Right))
        && whole.next_decided(Dim(0)).is_none()
}

#[test]
fn calls_work_at_last_dimension(rt: HostRuntime) {
    let one_word = last_right::<1>(Dim(63));
    assert!(rt; counts_one(&one_word, Dim(63)));
    assert!(rt; narrows_at(&Context::whole(Space::All), Dim(63), &one_word));
    let many_words = last_right::<32>(Dim(2047));
    assert!(rt; counts_one(&many_words, Dim(2047)));
    assert!(rt; narrows_at(&Context::whole(Space::AtMost(2)), Dim(2047), &many_words));
    assert!(rt; Context::<1>::whole(Space::All).space() == Space::All);
}

/// With its one `Right` taken, `AtMost(1)` decides the rest.
fn is_spent_by(first: Dim, second: Dim) -> bool
    requires at_first { first < 64 }
    requires at_second { second < 64 }
{
    match Context::<1>::whole(Space::AtMost(1)).with(first, Side::Right) {
        Some(spent) => {
            spent.side(second) == Some(Side::Left) && spent.with(second, Side::Right).is_none()
        }
        None => false,
    }
}

#[test]
fn budget_decides_the_rest(rt: HostRuntime) {
    assert!(rt; is_spent_by(Dim(0), Dim(1)));
}
