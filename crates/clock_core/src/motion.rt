//! How the media time goes: stopped, running, or waiting for ports, and what an act makes of it and its scale.

ghost use Rattle.std.specs.Prelude.{◌≡◌, ◌==◌, ◌-◌, ◌≤◌, ◌^◌, IsTrue};
ghost use Rattle.std.specs.Int.{bit_at};
ghost use Rattle.clock_core.specs.Clock.{least_of, motion_after, pace_of, rescaled, scale_after, answered, waits_for};
ghost use Rattle.clock_core.specs.Kept.{CanGoOn, IsWaitedFor};

use crate::ClockAct;
use crate::pace::{Pace, media_at};

/// How the media time goes.
#[derive(Clone, Copy)]
pub enum Motion {
    Stopped,
    /// At the wall moment `since` the media time was `media`.
    Running { since: u64, media: u64 },
    /// The ports of the mask that have not told, and the least media time that was told.
    Waiting { ports: u8, least: Option<u64> },
}

/// The pace of a running clock.
pub(crate) fn pace_of(motion: Motion, scale: u32) -> Option<Pace>
    ensures { result ≡ pace_of motion scale }
{
    match motion {
        Motion::Running { since, media } => Some(Pace {
            since,
            media,
            scale,
        }),
        _ => None,
    }
}

/// Whether a mask has a port.
fn holds_port(ports: u8, port: u32) -> bool
    ensures { result ≡ (bit_at ports port == 1) }
{
    port < 8 && (ports >> port) % 2 == 1
}

/// The mask without a port that it has.
fn without_port(ports: u8, port: u32) -> u8
    requires { IsTrue (bit_at ports port == 1) }
    ensures { result ≡ ports - 2 ^ port }
{
    ports - (1u8 << port)
}

/// Whether the clock waits for a port.
pub(crate) fn waits_for(motion: Motion, port: u32) -> bool
    ensures { result ≡ waits_for motion port }
{
    match motion {
        Motion::Waiting { ports, least: _ } => holds_port(ports, port),
        _ => false,
    }
}

fn least_of(least: Option<u64>, media: u64) -> u64
    ensures { result ≡ least_of least media }
{
    match least {
        Some(other) => other.min(media),
        None => media,
    }
}

/// The motion after a port that was waited for told its media time.
fn answered(wall: u64, port: u32, media: u64, motion: Motion) -> Motion
    requires { IsTrue (waits_for motion port) }
    ensures { result ≡ answered wall port media motion }
{
    match motion {
        Motion::Waiting { ports, least } => {
            let least = least_of(least, media);
            let left = without_port(ports, port);
            if left == 0 {
                Motion::Running {
                    since: wall,
                    media: least,
                }
            } else {
                Motion::Waiting {
                    ports: left,
                    least: Some(least),
                }
            }
        }
        other => other,
    }
}

/// The motion after the scale changed, which keeps the media time that was reached.
fn rescaled(wall: u64, scale: u32, motion: Motion) -> Motion
    requires slow { CanGoOn (pace_of motion scale) wall }
    requires within { wall ≤ 2 ^ 53 }
    ensures { result ≡ rescaled wall scale motion }
{
    match motion {
        Motion::Running { since, media } => Motion::Running {
            since: wall,
            media: media_at(
                Pace {
                    since,
                    media,
                    scale,
                },
                wall,
            ),
        },
        other => other,
    }
}

/// The scale after an act.
pub(crate) fn scale_after(act: ClockAct, scale: u32) -> u32
    ensures { result ≡ scale_after act scale }
{
    match act {
        ClockAct::Scale(scale) => scale,
        _ => scale,
    }
}

/// How the media time goes after an act.
pub(crate) fn motion_after(act: ClockAct, wall: u64, scale: u32, motion: Motion) -> Motion
    requires slow { CanGoOn (pace_of motion scale) wall }
    requires within { wall ≤ 2 ^ 53 }
    requires waits { IsWaitedFor motion act }
    ensures { result ≡ motion_after act wall scale motion }
{
    match act {
        ClockAct::Start(media) => Motion::Running { since: wall, media },
        ClockAct::Stop => Motion::Stopped,
        ClockAct::Scale(_) => rescaled(wall, scale, motion),
        ClockAct::Wait(ports) => Motion::Waiting { ports, least: None },
        ClockAct::Port { port, media } => answered(wall, port, media, motion),
        _ => motion,
    }
}
