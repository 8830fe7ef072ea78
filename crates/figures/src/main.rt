// Prints the checked figures of coefficients, noise, notes and effective length, by the routines. That the
// definitions give document 01's starred ones, and those that L5 adds, are specs/Starred.antt and Added.antt.
#![tactic(auto)]

use noise::Noise;
use pitch::Parts;
use refusal::code;
use thiran::Taps;
use values::{number, parts, taps};

fn coefficients(rt: &HostRuntime, order: u32, d: u32) {
    let answer = thiran::coefficients(order, d);
    let Taps { a1, a2, a3 } = taps(answer);
    let refusal = code(answer);
    let _ = println!(rt; "coefficients {order} {d}: {refusal} {a1} {a2} {a3}");
}

fn length(rt: &HostRuntime, order: u32, d: u32, threshold: u32) {
    let answer = allpass::effective_length(order, d, threshold);
    let refusal = code(answer);
    let length = number(answer);
    let _ = println!(rt; "length {order} {d} {threshold}: {refusal} {length}");
}

fn note(rt: &HostRuntime, order: u32, rate: u32, m: u32) {
    let answer = pitch::note(order, rate, m);
    let Parts { length, delay } = parts(answer);
    let refusal = code(answer);
    let _ = println!(rt; "note {order} {rate} {m}: {refusal} {length} {delay}");
}

fn draw(rt: &HostRuntime, noise: &mut Noise) {
    let state = noise.state;
    let value = noise.draw();
    let _ = println!(rt; "draw {state}: {value}");
}

fn main(rt: HostRuntime) {
    let tunings = [
        (1, 2_049),
        (1, 4_096),
        (1, 6_144),
        (1, 2_979),
        (2, 6_145),
        (2, 10_240),
        (2, 8_192),
        (3, 10_241),
        (3, 12_288),
        (3, 14_336),
        (1, 2_048),
        (2, 6_144),
    ];
    for (order, d) in tunings {
        coefficients(&rt, order, d);
    }
    let mut noise = Noise { state: 0 };
    for _ in 0..3 {
        draw(&rt, &mut noise);
    }
    note(&rt, 1, 44_100, 69);
    note(&rt, 2, 44_100, 69);
    length(&rt, 2, 9_159, 1_000);
    length(&rt, 1, 6_144, 1_000_000);
}
