ghost use Rattle.rk_process.specs.Lives.{WindowsStayGone};

/// The law on windows: an access at a multiple of its size, in a window whose block was sent or
/// freed, stops the process as `Gone`, for the rest of its life. The call does nothing.
pub fn windows_stay_gone_law()
    ensures { WindowsStayGone }
{}
