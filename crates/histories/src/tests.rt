mod frozen;
mod histories;
mod searches;
