//! The loop of a play over whatever makes its acts: it returns, and then the play is over, or a component's turn broke it
//! off. A round gives each component and each link its turn, in any order; since some act can always be made, a round in
//! which every turn found nothing to do can't be.
#![tactic(auto)]

ghost use Rattle.std.specs.Prelude.{◌≡◌, ◌<◌, ◌≤◌, ℕ, Bool, true, false, IfOk, OnOk, IfErr};
ghost use Rattle.play_model.specs.Play.{Layout, Play};
ghost use Rattle.play_model.specs.Reached.{IsOver};
ghost use Rattle.play_loop.specs.Turns.{AreOver, CanPlay, EndsOf, IsOfComponent, IsOfLink, IsSend, RoundsOf, SomePlay, TurnsOf};

/// What makes the acts of a play: a graph with its conductor. Each call that moves it answers whether an act was accepted.
pub trait TakeTurns {
    /// What a turn breaks a play off for: a step that failed, or a line of the log that wants memory.
    type Fault;

    ghost layout: { Self → Layout };

    /// The plays that it stands for: what has gone through a part need not be kept.
    ghost Plays: { Self → Play → Type 0 };

    /// What its turns lead to beside the plays, as long as no turn breaks the play off.
    ghost Leads: { Self → Self → Type 0 };

    /// What a turn that breaks the play off leads to.
    ghost Fails: { Self → Self → Self.Fault → Type 0 };

    fn components(&self) -> u32
        requires { SomePlay (Plays self.now) }
        ensures { result ≡ (layout self.now).network.components };

    fn links(&self) -> u32
        requires { SomePlay (Plays self.now) }
        ensures { result ≡ (layout self.now).network.links };

    /// Is the conductor's phase Over?
    fn is_over(&self) -> bool
        requires { SomePlay (Plays self.now) }
        ensures yes { result ≡ true → (p : Play) → Plays self.now p → IsOver (layout self.now) p }
        ensures nope { result ≡ false → (p : Play) → Plays self.now p → IsOver (layout self.now) p → ⊥ };

    /// The conductor's next command is sent to all, or its next act on a link that is being changed is made, once it is due.
    fn send(&mut self) -> bool
        requires { SomePlay (Plays self.old) }
        ensures layout { layout self.new ≡ layout self.old }
        ensures turned { TurnsOf (layout self.old) (Plays self.old) (Plays self.new) result IsSend }
        ensures leads { Leads self.old self.new };

    /// A note is told, a command run, a work claimed, run and finished, as far as each can be.
    fn component_turn(&mut self, component: u32) -> Result<bool, Self::Fault>
        requires there { component < (layout self.old).network.components }
        requires plays { SomePlay (Plays self.old) }
        ensures layout { layout self.new ≡ layout self.old }
        ensures turned { IfOk result (λ acted. TurnsOf (layout self.old) (Plays self.old) (Plays self.new) acted
            (IsOfComponent (layout self.old) component)) }
        ensures leads { OnOk result (Leads self.old self.new) }
        ensures failed { IfErr result (Fails self.old self.new) };

    /// A header is made, unmade, handed over, handed back, as far as each can be.
    fn link_turn(&mut self, link: u32) -> bool
        requires there { link < (layout self.old).network.links }
        requires plays { SomePlay (Plays self.old) }
        ensures layout { layout self.new ≡ layout self.old }
        ensures turned { TurnsOf (layout self.old) (Plays self.old) (Plays self.new) result (IsOfLink link) }
        ensures leads { Leads self.old self.new };

    ghost leads_to_itself: { (x : Self) → Leads x x };

    ghost leads_on: { (x y z : Self) → Leads x y → Leads y z → Leads x z };

    ghost fails_on: { (x y z : Self) (fault : Self.Fault) → Leads x y → Fails y z fault → Fails x z fault };
}

/// One round over the conductor, the components and the links. Something was accepted, since something can be.
fn round<P: TakeTurns>(player: &mut P) -> Result<bool, P::Fault>
    requires { SomePlay (P.Plays player.old) }
    ensures layout { P.layout player.new ≡ P.layout player.old }
    ensures round { IfOk result (λ did. RoundsOf (P.layout player.old) (P.Plays player.old) (P.Plays player.new) did
        (P.layout player.old).network.components (P.layout player.old).network.links) }
    ensures leads { OnOk result (P.Leads player.old player.new) }
    ensures failed { IfErr result (P.Fails player.old player.new) }
{
    let mut did = player.send();
    let components = player.components();
    for c in 0..components {
        let acted = player.component_turn(c)?;
        did = did | acted;
    }
    let links = player.links();
    for l in 0..links {
        let acted = player.link_turn(l);
        did = did | acted;
    }
    Ok(did)
}

/// Rounds until the play is over, or a turn has broken it off.
pub fn play_on<P: TakeTurns>(player: &mut P) -> Result<(), P::Fault>
    requires { CanPlay (P.layout player.old) (P.Plays player.old) 340282366920938463463374607431768211455 }
    ensures layout { P.layout player.new ≡ P.layout player.old }
    ensures over { OnOk result (EndsOf (P.layout player.old) (P.Plays player.old) (P.Plays player.new)) }
    ensures all { OnOk result (AreOver (P.layout player.new) (P.Plays player.new)) }
    ensures leads { OnOk result (P.Leads player.old player.new) }
    ensures failed { IfErr result (P.Fails player.old player.new) }
{
    // Each round makes an act, and a play has fewer.
    for _round in 0..u128::MAX {
        if player.is_over() {
            return Ok(());
        }
        if !round(player)? {
            unreachable!()
        }
    }
    unreachable!()
}
