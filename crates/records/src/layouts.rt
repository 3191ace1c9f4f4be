//! How each kind of record is laid out in bytes.

mod application;
mod event;
mod request;
mod settings;
