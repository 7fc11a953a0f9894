mod actions;
mod empties;
mod followers;
mod history;
mod rules;
