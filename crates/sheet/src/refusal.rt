pub use line::refusal::SheetRefusal;
