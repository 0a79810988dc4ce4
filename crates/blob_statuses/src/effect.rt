// What a call may do: to what a crash leaves, to the generator and to what is durable.
ghost use Rattle.std.specs.Prelude.{◌≡◌};
ghost use Rattle.blob_statuses.specs.Effects.{bits_of};

/// A bit of an effect: what a crash leaves may differ after the call.
pub const CHANGES: u32 = 1;
/// The call may take words of the generator.
pub const DRAWS: u32 = 2;
/// The call makes something durable, if it is done.
pub const SYNCS: u32 = 4;
/// The call returns something and does nothing else.
pub const LOOKS: u32 = 8;

/// What a call is to the supply of power.
#[derive(Clone, Copy)]
pub enum Role {
    Ordinary,
    /// It returns something and does nothing else.
    Looks,
    /// It is a setting, which is made while the power is off.
    Sets,
    /// It closes a handle.
    Closes,
    /// It crashes a store.
    Crashes,
    /// It reopens a store.
    Reopens,
    /// It crashes files and recovers them.
    Restarts,
}

/// What a call may do.
#[derive(Clone, Copy)]
pub struct Effect {
    /// What a crash leaves may differ after it.
    pub changes: bool,
    /// It may take words of the generator.
    pub draws: bool,
    /// It makes something durable, if it is done.
    pub syncs: bool,
    pub role: Role,
}

impl Effect {
    /// Returns the effect as bits.
    pub fn bits(self) -> u32
        ensures { result ≡ bits_of self }
    {
        let changes = if self.changes { CHANGES } else { 0 };
        let draws = if self.draws { DRAWS } else { 0 };
        let syncs = if self.syncs { SYNCS } else { 0 };
        let looks = match self.role {
            Role::Looks => LOOKS,
            _ => 0,
        };
        changes + draws + syncs + looks
    }
}
