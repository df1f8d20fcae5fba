use hs_base::TokenRef;

/// A time point by its name.
#[derive(Clone, Copy, Debug, PartialEq, Eq)]
pub enum PointName {
    /// The origin of all times.
    Origin,
    /// The horizon with this number, counted from 1.
    Horizon(u32),
    /// The end of a token.
    End(TokenRef),
}
