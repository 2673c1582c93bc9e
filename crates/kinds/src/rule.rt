// The one rule over the elements side by side and the halves: lane and element to the major and the minor number, and back.
ghost use Rattle.std.specs.Prelude.{◌≡◌, ◌*◌, ◌/◌, ◌%◌, ◌<◌, ◌≤◌};
ghost use Rattle.kinds.specs.Kinds.{lanes};
ghost use Rattle.kinds.specs.Rule.{major, minor, lane_of, element_of};

use crate::{Element, Lane};

// What is left of n, how often it goes, and so many times n, where a layout takes things by ones or twos: none costs a division or a
// multiplication.
pub fn remainder(by: usize, n: usize) -> usize
    requires { (0 < by) × (by ≤ 2) }
    ensures { result ≡ n % by }
{
    if by == 1 {
        return 0;
    }
    n % 2
}

pub fn quotient(by: usize, n: usize) -> usize
    requires { (0 < by) × (by ≤ 2) }
    ensures { result ≡ n / by }
{
    if by == 1 {
        return n;
    }
    n / 2
}

pub fn multiple(by: usize, n: usize) -> usize
    requires { (0 < by) × (by ≤ 2) × (n ≤ 65536) }
    ensures { (result ≡ n * by) × (result ≤ 2 * n) }
{
    if by == 1 {
        return n;
    }
    n * 2
}

// The major and the minor number of an element.
#[tactic(auto, unfolding(crate::specs::Rule::major))]
pub fn across(side: usize, halves: usize, lane: Lane, element: Element) -> usize
    requires { (0 < side) × (0 < halves) × (halves ≤ 2) × (lane.0 < lanes) }
    ensures is { result ≡ major side halves lane.0 element.0 }
    ensures small { result < 16 }
{
    let l = lane.0 as usize;
    let i = element.0 as usize;
    remainder(halves, i / side) * 8 + l / Lane::QUAD
}

#[tactic(auto, unfolding(crate::specs::Rule::minor))]
pub fn along(side: usize, halves: usize, lane: Lane, element: Element) -> usize
    requires { (0 < side) × (side ≤ 32) × (0 < halves) × (halves ≤ 2) × (element.0 ≤ 128) }
    ensures is { result ≡ minor side halves lane.0 element.0 }
    ensures small { result < 1024 }
{
    let l = lane.0 as usize;
    let i = element.0 as usize;
    (quotient(halves, i / side) * Lane::QUAD + l % Lane::QUAD) * side + i % side
}

// The lane and the element of a major number x and a minor number y.
#[tactic(auto, unfolding(crate::specs::Rule::lane_of))]
pub fn lane_at(side: usize, x: usize, y: usize) -> usize
    requires { 0 < side }
    ensures is { result ≡ lane_of side x y }
    ensures small { result < lanes }
{
    x % 8 * Lane::QUAD + y / side % Lane::QUAD
}

#[tactic(auto, unfolding(crate::specs::Rule::element_of))]
pub fn element_at(side: usize, halves: usize, x: usize, y: usize) -> usize
    requires { (0 < side) × (side ≤ 32) × (halves ≤ 2) × (x ≤ 16) × (y ≤ 256) }
    ensures is { result ≡ element_of side halves x y }
    ensures small { result < 1024 }
{
    (y / side / Lane::QUAD * halves + x / 8) * side + y % side
}
