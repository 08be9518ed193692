//! Times each kernel, from bytes to bytes, beside a copy of as many samples. Figures come only with
//! the word `figures`.
#![tactic(auto)]

ghost use Rattle.std.specs.Prelude.{◌≡◌, ◌*◌, ◌%◌, ◌≤◌, length, All, IfOk};
ghost use Rattle.pcm_ops.specs.Samples.{IsSum};

use g711_law::{alaw_decode_all, alaw_encode_all, mulaw_decode_all, mulaw_encode_all};
use pcm_ops::{clamp_into, copy_into, gain_into, mix_into};
use std::alloc::Global;
use std::time::{Duration, Instant};
use std::{env, io};

/// The samples of a piece, and how many pieces make 64 Mi samples.
const PIECE: usize = 4096;

const PIECES: u32 = 16_384;

fn copies(from: &[u8], to: &mut [u8])
    requires { length from.now ≡ length to.old }
{
    for _ in 0..PIECES {
        copy_into(from, to);
    }
}

fn alaw_encodes(from: &[u8], to: &mut [u8])
    requires { length from.now ≡ 2 * length to.old }
{
    for _ in 0..PIECES {
        alaw_encode_all(from, to);
    }
}

fn alaw_decodes(from: &[u8], to: &mut [u8])
    requires { length to.old ≡ 2 * length from.now }
{
    for _ in 0..PIECES {
        alaw_decode_all(from, to);
    }
}

fn mulaw_encodes(from: &[u8], to: &mut [u8])
    requires { length from.now ≡ 2 * length to.old }
{
    for _ in 0..PIECES {
        mulaw_encode_all(from, to);
    }
}

fn mulaw_decodes(from: &[u8], to: &mut [u8])
    requires { length to.old ≡ 2 * length from.now }
{
    for _ in 0..PIECES {
        mulaw_decode_all(from, to);
    }
}

fn gains(from: &[u8], to: &mut [u8])
    requires whole { length from.now % 2 ≡ 0 }
    requires same_length { length from.now ≡ length to.old }
{
    for _ in 0..PIECES {
        gain_into(from, 5000, to);
    }
}

fn clear(sum: &mut [i32])
    ensures zero { All IsSum sum.new }
    ensures len { length sum.new ≡ length sum.old }
{
    sum.fill(0);
}

/// Each mix begins with sums of 0.
fn mixes(sum: &mut [i32], from: &[u8])
    requires { length from.now ≡ 2 * length sum.old }
{
    for _ in 0..PIECES {
        clear(sum);
        mix_into(sum, from, 3000);
    }
}

fn clamps(sum: &[i32], to: &mut [u8])
    requires { length to.old ≡ 2 * length sum.now }
{
    for _ in 0..PIECES {
        clamp_into(sum, to);
    }
}

fn micros(time: Duration) -> u64
    ensures { 1 ≤ result }
{
    u64::try_from(time.as_micros()).unwrap_or(u64::MAX).max(1)
}

/// A form's millions of samples a second, and its speed in hundredths of the copy's.
fn report(rt: &HostRuntime, name: &str, copy: Duration, time: Duration) -> io::Result<()> {
    let samples = PIECES as u64 * PIECE as u64;
    let speed = samples / micros(time);
    let ratio = micros(copy).saturating_mul(100) / micros(time);
    println!(rt; "{name}: {speed} million a second, {ratio} hundredths of the copy")
}

/// The bytes of the samples of a piece.
fn made_samples(alloc: Global) -> io::Result<Vec<u8>>
    ensures { IfOk result (λ samples. length samples.items ≡ 8192) }
{
    let mut samples = vec![in alloc; 0_u8; 2 * PIECE]?;
    for i in 0..samples.len() {
        samples[i] = (i % 251) as u8;
    }
    Ok(samples)
}

/// The copy, to which each form is compared.
fn copy_figure(rt: &HostRuntime, samples: &[u8]) -> io::Result<Duration>
    requires { length samples.now ≡ 8192 }
{
    let mut copied = vec![in rt.alloc(); 0_u8; 2 * PIECE]?;
    let start = Instant::now(rt)?;
    copies(samples, &mut copied);
    let copy = start.elapsed(rt)?;
    report(rt, "copy", copy, copy)?;
    println!(rt; "last item: {}", copied[2 * PIECE - 1])?;
    Ok(copy)
}

fn law_figures(rt: &HostRuntime, copy: Duration, samples: &[u8]) -> io::Result<()>
    requires { length samples.now ≡ 8192 }
{
    let mut to = vec![in rt.alloc(); 0_u8; 2 * PIECE]?;
    let mut codes = vec![in rt.alloc(); 0_u8; PIECE]?;
    let start = Instant::now(rt)?;
    alaw_encodes(samples, &mut codes);
    report(rt, "A-law encode", copy, start.elapsed(rt)?)?;
    let start = Instant::now(rt)?;
    alaw_decodes(&codes, &mut to);
    report(rt, "A-law decode", copy, start.elapsed(rt)?)?;
    let start = Instant::now(rt)?;
    mulaw_encodes(samples, &mut codes);
    report(rt, "mu-law encode", copy, start.elapsed(rt)?)?;
    let start = Instant::now(rt)?;
    mulaw_decodes(&codes, &mut to);
    report(rt, "mu-law decode", copy, start.elapsed(rt)?)?;
    println!(rt; "last items: {} {}", codes[PIECE - 1], to[2 * PIECE - 1])
}

fn sample_figures(rt: &HostRuntime, copy: Duration, samples: &[u8]) -> io::Result<()>
    requires { length samples.now ≡ 8192 }
{
    let mut to = vec![in rt.alloc(); 0_u8; 2 * PIECE]?;
    let mut sum = vec![in rt.alloc(); 0_i32; PIECE]?;
    let start = Instant::now(rt)?;
    gains(samples, &mut to);
    report(rt, "gain", copy, start.elapsed(rt)?)?;
    let start = Instant::now(rt)?;
    mixes(&mut sum, samples);
    report(rt, "clear and mix", copy, start.elapsed(rt)?)?;
    let start = Instant::now(rt)?;
    clamps(&sum, &mut to);
    report(rt, "clamp", copy, start.elapsed(rt)?)?;
    println!(rt; "last items: {} {}", sum[PIECE - 1], to[2 * PIECE - 1])
}

fn figures(rt: &HostRuntime) -> io::Result<()> {
    let samples = made_samples(rt.alloc())?;
    let copy = copy_figure(rt, &samples)?;
    law_figures(rt, copy, &samples)?;
    sample_figures(rt, copy, &samples)
}

fn main(rt: HostRuntime) -> io::Result<()> {
    let mut words = env::args(&rt)?;
    let _program = words.next();
    match words.next() {
        Some(word) if word.as_str() == "figures" => figures(&rt),
        _ => println!(rt; "kernel_bench: the word figures asks for the figures"),
    }
}
