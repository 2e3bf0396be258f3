use crate::LineFault;
use exh_keyer::AnyKeyer;
use exh_page::FileSettings;

/// Who is told what a run can't say in its text. Nothing is promised of it.
pub trait Listener {
    /// The first line of a text, where it isn't a right one.
    fn first_refused(&mut self, text: &[u8], line: &[u8], fault: LineFault);

    /// What was printed of a later line of a text: each that isn't empty, in order.
    fn answered(&mut self, text: &[u8], line: &[u8], printed: &[u8]);

    /// The text is above its limits.
    fn too_long(&mut self);

    /// The settings of a script, and those of the page file that it was to be run over.
    fn differs(&mut self, script: FileSettings<AnyKeyer>, opened: FileSettings<AnyKeyer>);

    /// So many requests were begun and not answered when the script ended.
    fn script_ended(&mut self, requests: u64);

    /// All pairs were put, as far as there was room, into a file of these settings.
    fn pairs_ended(&mut self, file: FileSettings<AnyKeyer>);
}

/// Who listens to nothing.
#[derive(Clone, Copy)]
pub struct Silent;

impl Listener for Silent {
    fn first_refused(&mut self, _text: &[u8], _line: &[u8], _fault: LineFault) {}

    fn answered(&mut self, _text: &[u8], _line: &[u8], _printed: &[u8]) {}

    fn too_long(&mut self) {}

    fn differs(&mut self, _script: FileSettings<AnyKeyer>, _opened: FileSettings<AnyKeyer>) {}

    fn script_ended(&mut self, _requests: u64) {}

    fn pairs_ended(&mut self, _file: FileSettings<AnyKeyer>) {}
}
